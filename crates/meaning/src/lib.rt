// The meaning of document 01: definitions in specs/, theorems on them in proofs/. This crate has no code.
#![tactic(auto)]
