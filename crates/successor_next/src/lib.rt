// The states that the steps of a label lead to, one after the other ("Steps").
#![tactic(auto)]

pub mod arrive;
