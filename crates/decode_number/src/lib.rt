// Numbers at a position of a slice, and what readers answer: an end, or a refusal with its place ("Bytes"; "Turned back for the
// input").
#![tactic(auto)]

pub mod answer;
pub mod number;
