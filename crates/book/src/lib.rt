// The bytes of a book: definitions and laws alone; no code.

#![tactic(auto)]
