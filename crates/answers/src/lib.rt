// What is said of a reading, passed on to the crates above it: definitions in specs/, laws in proofs/. Nothing of the walk can be opened through it. This crate has no code.
#![tactic(auto)]
