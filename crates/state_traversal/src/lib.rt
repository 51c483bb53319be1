// The traversal of a process, which settles it and does what its task says at each thread, copies included ("Steps"; "Judging and its count").
#![tactic(auto)]

pub mod traverse;
