// The binding of messages after those that are bound, and two terms compared under them ("Steps").
#![tactic(auto)]

pub mod bind;
pub mod decide;
