// Left and right doors mirror (document 02, request 1). This crate has no code: `specs` says what a mirrored drawing is, and `proofs` that drawing, viewing, editing, drawing steps and
// previews of mirrored numbers come to the mirror of what they came to.
#![tactic(auto)]
