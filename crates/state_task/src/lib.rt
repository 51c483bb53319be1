// What a traversal is to do at each thread, positions in a process, and the copies that a task opens, as data ("Steps").
#![tactic(auto)]

pub mod opening;
pub mod place;
pub mod task;
