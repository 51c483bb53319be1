// Terms and recipes worked under bound messages ("Messages"; "Steps").
#![tactic(auto)]

mod bound;
mod field;
mod leaf;
pub mod work;
