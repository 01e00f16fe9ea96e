// The words that a line of a book can begin with, looked up by length and letters. No constant array holds one.
#![tactic(auto)]

pub mod lookup;
pub mod word;
