// A monitor that was saved and restored: definitions and theorems, no code.
#![tactic(auto)]
