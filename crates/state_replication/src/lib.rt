// What a traversal does at a repl thread: which of its copies are opened, and what becomes of the thread itself ("Steps"; "Judging and its count").
#![tactic(auto)]

pub mod copies;
