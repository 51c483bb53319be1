// Both models judged, each of them and the formula with its index beside it, and the work bytes cleared ("Turned back for the state").
#![tactic(auto)]

mod model;
pub mod models;
