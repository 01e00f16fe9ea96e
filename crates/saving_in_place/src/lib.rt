// A monitor struct saved into lent bytes, and restored from them: in place, and by value over that.
#![tactic(auto)]

pub mod restore;
pub mod save;
