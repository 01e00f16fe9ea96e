// The layout calls: they test what they are lent.
#![tactic(auto)]

pub mod book;
pub mod rule;
