// What is known of the body of a step formula before it is judged, and what judging comes to ("Judging and its count").
#![tactic(auto)]

pub mod judged;
pub mod memo;
