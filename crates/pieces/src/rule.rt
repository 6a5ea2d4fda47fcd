// What a piece is held against.
ghost use Rattle.std.specs.Prelude.{◌≤◌};
ghost use Rattle.pieces.specs.Tree.{most_tolerance};

use curve::Basis;

// The basis that a piece's controls are worked from, whose divisor they are over, and the tolerance that it is to be flat within.
#[derive(Clone, Copy)]
pub struct Rule {
    pub basis: Basis,
    pub tolerance: usize,
    pub ghost near: { tolerance ≤ most_tolerance },
}
