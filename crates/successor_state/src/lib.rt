// The state that a step leads to, formed in the lent work bytes ("Steps"; "Judging and its count").
#![tactic(auto)]

pub mod lead;
