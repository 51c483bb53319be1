// A step as a value: its label, and the threads that act ("Steps").
#![tactic(auto)]

pub mod step;
