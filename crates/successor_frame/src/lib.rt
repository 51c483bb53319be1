// The aliases of the state that a step leads to, written in the lent work bytes, counted and judged ("Steps"; "Judging and its count").
#![tactic(auto)]

pub mod aliases;
