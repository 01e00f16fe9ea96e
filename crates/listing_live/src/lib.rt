// The `live` and `owe` lines of a listing, written from a split's output.
#![tactic(auto)]

pub mod live;
pub mod owe;
