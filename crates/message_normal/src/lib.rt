// The normal form of a message that is a run of bytes in a lent slice ("Messages").
#![tactic(auto)]

pub mod normal;
