// The lines of the rules of a book, as text: definitions only.
#![tactic(auto)]
