// Document 01's ten marked examples, in one table under one proved statement; there is no code.

#![tactic(auto)]
