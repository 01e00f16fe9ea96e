// The texts of signals and of operands, written from a formula table.
#![tactic(auto)]

pub mod scan;
