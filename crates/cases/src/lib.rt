// The cases worked by hand: definitions and laws alone; no code.

#![tactic(auto)]
