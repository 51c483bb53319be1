// The silent steps of two threads of a state, one after the other ("Steps").
#![tactic(auto)]

pub mod between;
