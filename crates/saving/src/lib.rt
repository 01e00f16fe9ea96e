// A monitor's state saved into lent bytes and read back (document 02, order 3).
#![tactic(auto)]

pub mod restore;
pub mod save;
