// States in the lent work bytes: the records of threads, how they are written and loaded, the limits of a state, and what a traversal that
// writes one has come to ("Steps"; "Judging and its count").
#![tactic(auto)]

pub mod record;
pub mod state;
pub mod stored;
