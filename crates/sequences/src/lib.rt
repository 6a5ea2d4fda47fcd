// Any sequence of edits, refused calls among them (demand 3). This crate has no code: what a sequence of calls comes to is defined in `specs` by the reading of one edit, and `proofs` has the theorems.
#![tactic(auto)]
