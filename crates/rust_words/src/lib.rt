// Definitions of ours held against the Rust's own words, where the two are put otherwise. Definitions and laws only.
#![tactic(auto)]
