// The text of the tables that the test programs run: lines, digits, and the bytes that they spell.
#![tactic(auto)]

pub mod hex;
pub mod input;
pub mod spell;
pub mod text;
