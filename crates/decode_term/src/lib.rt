// Reading terms from bytes: the refusals 2 to 7 with their places, or the end of the terms that stand there ("Bytes"; "Turned back
// for the input").
#![tactic(auto)]

pub mod sort;
pub mod term;
