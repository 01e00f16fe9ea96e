// A monitor that goes on from a given state: definitions and theorems, no code.
#![tactic(auto)]
