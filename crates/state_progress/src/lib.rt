// What a traversal has come to, as numbers and bytes, and a thread written into the state ("Steps").
#![tactic(auto)]

pub mod progress;
pub mod written;
