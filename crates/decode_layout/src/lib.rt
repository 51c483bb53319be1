// The kinds and limits of document 01, what follows each kind of terms, processes and formulas, and the ends of terms that are known to stand at
// a position ("Bytes").
#![tactic(auto)]

pub mod ends;
pub mod formula_kind;
pub mod layout;
pub mod limit;
pub mod process_kind;
pub mod term_kind;
pub mod unknown_kind;
