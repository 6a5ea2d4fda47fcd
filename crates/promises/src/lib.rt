// The promises of document 01 in one place. This crate has no code: its statements stand in `proofs`, each with its proof a citation of the crate that has the theorem.
#![tactic(auto)]
