// The answer in four numbers, and the refusals for the input ("Turned back for the input").
#![tactic(auto)]

pub mod answer;
pub mod input;
pub mod outcome;
