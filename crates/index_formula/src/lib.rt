// The index of a formula ("Bytes", the formula kinds).
#![tactic(auto)]

pub mod index;
