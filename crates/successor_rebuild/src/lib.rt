// The threads that a step leaves in the next state: those that act as their tasks leave them, the others kept as blocks ("Steps").
#![tactic(auto)]

pub mod block;
pub mod kind;
pub mod rebuild;
pub mod tasks;
