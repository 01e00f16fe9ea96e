// Theorems about compiled rules: no code. What the compiler leaves in its output reads back as the compiled rule.
#![tactic(auto)]
