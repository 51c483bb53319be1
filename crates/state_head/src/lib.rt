// The head of a process, below every new, if and let, the private names that settling takes, and the traversal as a function on trees ("Steps").
#![tactic(auto)]

pub mod count;
pub mod head;
