// The rules of a book: compiled into one node table, laid out, and compared.
#![tactic(auto)]

pub mod compile;
pub mod fields;
pub mod likeness;
pub mod lists;
pub mod place;
