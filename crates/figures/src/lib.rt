// Amounts, counts and transaction numbers, which are never mixed, and the totals that they make up.

#![tactic(auto, unfolding(crate::specs::Figures::within, crate::specs::Figures::follows, crate::specs::Groups::gives))]

pub mod amounts;
pub mod counts;
pub mod groups;
pub mod totals;
