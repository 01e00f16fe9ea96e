// A node's entry in a monitor's memory, and one step of it: of a check, and of a joined node after its parts.
#![tactic(auto)]

pub mod check;
pub mod joined;
pub mod state;
