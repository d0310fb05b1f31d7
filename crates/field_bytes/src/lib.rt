// A field's bytes: the class that each is in, and fixed text.

#![tactic(auto)]

pub mod classes;
pub mod texts;
