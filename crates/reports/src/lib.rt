// The meaning of a report, for the code's own calls: definitions and theorems, no code.
#![tactic(auto)]
