// Reading a book into lent tables, and its steps one by one.
#![tactic(auto)]

pub mod fill;
pub mod read;
pub mod slots;
pub mod steps;
pub mod tables;
