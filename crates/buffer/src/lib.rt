// Lent bytes: numbers in two bytes, copies, and what a call leaves as it was.
#![tactic(auto)]

pub mod slice;
pub mod word;
