// The recipes of a formula at a state, and the label of a step formula there ("Steps": channel and message of a label are recipes).
#![tactic(auto)]

pub mod head;
mod recipe;
