// The reports of a book and their lines, as text: definitions only.
#![tactic(auto)]
