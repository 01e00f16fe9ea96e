// The listing of a book, as text: definitions only.
#![tactic(auto)]
