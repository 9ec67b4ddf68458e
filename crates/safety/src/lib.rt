// Definitions and lemmas on what every move keeps, and so on what holds in every run; no functions.
#![tactic(auto)]
