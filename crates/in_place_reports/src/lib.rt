// The meaning of a report, for calls on a monitor struct: definitions and theorems, no code.
#![tactic(auto)]
