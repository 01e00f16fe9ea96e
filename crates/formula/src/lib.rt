// Formulas: the table that holds them, its validation, purity, a signal's value and its text.
#![tactic(auto)]

pub mod signal;
pub mod table;
