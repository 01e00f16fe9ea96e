// Theorems about the reports of a listing: what each says of the rules and the step lines. No code.
#![tactic(auto)]
