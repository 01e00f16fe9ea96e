// The calls for C and Rust over a static library (embed/cavewatch.h): numbers, slices and a pointer to three numbers.
#![tactic(auto)]

pub mod books;
pub mod rule;
pub mod tell;
