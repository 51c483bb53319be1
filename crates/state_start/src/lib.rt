// The start state, formed by a traversal, and traversals of the threads of a state that stands in the work bytes ("Steps"; "Judging and its
// count").
#![tactic(auto)]

pub mod form;
pub mod loaded;
