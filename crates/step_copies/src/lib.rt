// Silent steps of single threads, in their copies: repl thread by repl thread, in one copy and then in two ("Steps").
#![tactic(auto)]

pub mod copy_step;
