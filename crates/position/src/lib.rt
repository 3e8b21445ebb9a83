// Where cursors stand in an accepted image: definitions and laws, in specs/ and proofs/. This crate has no code.
#![tactic(auto)]
