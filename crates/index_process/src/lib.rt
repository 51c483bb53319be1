// The index of a model: what is to be known of each of its processes, so that nobody goes over a process to find it ("Bytes").
#![tactic(auto)]

pub mod index;
