// How far the cut strays from the curve (document 02, request 13). This crate has no code: `specs` says what a chord is and what bounds how far the curve strays from it, and `proofs` that
// it does so, for every basis and any depths; that each point is found again at every deeper depth; and what outlines, even ones and those by tolerance, owe to that.
#![tactic(auto)]
