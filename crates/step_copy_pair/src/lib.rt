// Silent steps in the copies of one repl thread: the next pair of a sender and a taker ("Steps").
#![tactic(auto)]

pub mod meet;
