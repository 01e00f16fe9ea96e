// A line of a book: its fields, its word, and what it holds, read without any state.
#![tactic(auto)]

pub mod line;
pub mod text;
