// The lines of one rule of a listing.
#![tactic(auto)]

pub mod section;
