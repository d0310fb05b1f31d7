// A choice by a test, for the definitions of every other crate; there is no code.

#![tactic(auto)]
