// A run of calls and its history: definitions and laws alone; no code.

#![tactic(auto)]
