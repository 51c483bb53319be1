// How a state stands in the work bytes, with the records of its threads: definitions and theorems ("Steps"; "Judging and its count"). This crate has no code.
#![tactic(auto)]
