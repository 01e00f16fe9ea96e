// The layout of monitor state in bits (src/mc/plan.rs).
#![tactic(auto)]

pub mod layout;
