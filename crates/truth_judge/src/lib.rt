// Judging a formula at a state, without short cuts ("Judging and its count").
#![tactic(auto)]

pub mod judge;
mod stepping;
mod turn;
