// Messages as runs of bytes in a lent slice: their nodes, size and comparison ("Messages").
#![tactic(auto)]

pub mod node;
pub mod run;
