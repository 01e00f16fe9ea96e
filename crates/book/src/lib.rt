// A book: what its lines are together, and the check over its bytes, which writes nothing.
#![tactic(auto)]

pub mod check;
pub mod due;
pub mod state;
