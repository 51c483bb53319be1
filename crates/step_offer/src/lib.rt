// Offers of the threads of a state: the next one that is sought, and what it sends copied to where it stays ("Steps").
#![tactic(auto)]

pub mod hand;
mod pass;
pub mod seek;
