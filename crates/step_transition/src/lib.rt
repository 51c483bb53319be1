// The steps of a state by who acts, and what each leads to: definitions and theorems ("Steps"; "Judging and its count"). This crate has no code.
#![tactic(auto)]
