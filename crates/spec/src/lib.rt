// The rules are definitions and theorems, in specs/ and proofs/. This crate has no code.
#![tactic(auto)]
