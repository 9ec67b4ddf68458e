// Definitions and lemmas on counts over processes; the crates above have the functions that compute them.
#![tactic(auto)]
