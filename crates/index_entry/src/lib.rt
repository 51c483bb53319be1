// What the index of a model says of one process, and of processes in a row ("Bytes"; "Steps").
#![tactic(auto)]

pub mod entry;
