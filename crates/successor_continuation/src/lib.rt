// What follows an offer, settled, and the private names that the rests of a step take: what follows the threads that act, settled one after
// the other ("Steps").
#![tactic(auto)]

mod counting;
pub mod names;
pub mod rest;
pub mod settled;
