// Laws that need only the toolchain's libraries and that the proofs of several crates cite: a crate, so that they stand below all others. Laws only.
#![tactic(auto)]
