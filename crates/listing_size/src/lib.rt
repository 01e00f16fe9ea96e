// Theorems about the listing: what an accepted book hands to it, and how long it can be. No code.
#![tactic(auto)]
