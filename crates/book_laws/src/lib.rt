// Theorems about books: no code. An accepted book's rules are formulas, and a rule list that is written out is read back.
#![tactic(auto)]
