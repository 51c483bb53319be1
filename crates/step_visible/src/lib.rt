// The next output or input with a label ("Steps").
#![tactic(auto)]

pub mod labelled;
