// The lines of a listing, written into lent memory.
#![tactic(auto)]

pub mod field;
pub mod node;
pub mod plan_line;
pub mod rule;
