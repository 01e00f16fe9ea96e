// A monitor in one struct, lent by `&mut`: made and stepped in place.
#![tactic(auto)]

pub mod fresh;
pub mod step;

use terms::limit::RULE_NODES;

// The count of its nodes, and for each node its form, its bound and its state (crates/node_step, `MonState`). Memory is fixed, so the count stands
// beside arrays of the largest size.
#[derive(Clone, Copy, Debug, PartialEq, Eq)]
pub struct ReferenceMonitor {
    pub size: usize,
    pub forms: [u64; RULE_NODES],
    pub bounds: [u64; RULE_NODES],
    pub held: [bool; RULE_NODES],
    pub remaining: [u64; RULE_NODES],
    pub failed: [bool; RULE_NODES],
    pub culprits: [i64; RULE_NODES],
}
