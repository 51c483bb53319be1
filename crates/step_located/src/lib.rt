// What traversals find and write, told against the definitions: theorems in proofs/, stated in specs/. This crate has no code.
#![tactic(auto)]
