// The state that an output or an input leads to of a thread that acts itself ("Steps"; "Judging and its count").
#![tactic(auto)]

pub mod alone;
mod halves;
