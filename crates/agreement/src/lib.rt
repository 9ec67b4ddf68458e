// Definitions and lemmas on what holds of every wire that correct processes write to by the rules; the crates above have the functions.
#![tactic(auto)]
