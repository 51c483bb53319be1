// The steps of a state one after the other, for each label ("Steps").
#![tactic(auto)]

pub mod next;
mod silent;
