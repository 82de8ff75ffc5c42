// Scenes whose planes the Rust gave: the definition of `build_planes` computes them, bit for bit. Laws only.
#![tactic(auto)]
