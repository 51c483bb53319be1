// The traversal that seeks an offer, copies included ("Steps").
#![tactic(auto)]

pub mod seek;
