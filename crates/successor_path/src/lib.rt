// The way from a thread down to a process in it, and the private names that are taken from there ("Steps").
#![tactic(auto)]

pub mod count;
pub mod reach;
