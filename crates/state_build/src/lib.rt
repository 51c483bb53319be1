// The traversal that writes the threads as a step leaves them ("Steps").
#![tactic(auto)]

pub mod build;
