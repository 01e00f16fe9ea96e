// Compiled rules: ranges, nodes, and the table that holds them (src/codegen/monitor.rs).
#![tactic(auto)]

pub mod node;
pub mod range;
pub mod table;
