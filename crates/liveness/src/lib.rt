// Liveness: whether a property has it, and why its split may be refused (src/mc/plan.rs).
#![tactic(auto)]

pub mod walk;
