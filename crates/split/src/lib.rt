// The liveness split of a rule: its skeleton and obligations, in lent memory (src/mc/plan.rs).
#![tactic(auto)]

pub mod parts;
