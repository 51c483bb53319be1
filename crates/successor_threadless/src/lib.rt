// The state that a step leads to, formed without its threads, and what the copies that it opens add at most ("Steps"; "Judging and its count").
#![tactic(auto)]

mod excess;
pub mod threadless;
