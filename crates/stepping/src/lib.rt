// Stepping a compiled rule's monitor over words of truths (src/codegen/monitor.rs, `ReferenceMonitor`).
#![tactic(auto)]

pub mod call;
pub mod fresh;
pub mod walk;
