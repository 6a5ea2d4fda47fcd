// The pieces of one span that is cut by tolerance (document 02, request 3): which of them are flat, how many cuts that takes, and the flat ones' starts. The calls are for crates of this
// project: they require what those have checked.
#![tactic(auto)]

ghost use Rattle.std.specs.Prelude.{◌≡◌};
ghost use Rattle.pieces.specs.Tree.{piece, left_piece, right_piece};
ghost use Rattle.pieces.specs.Walk.{refusal_of};
ghost use Rattle.pieces.specs.Inner.{Halvable};

pub mod fill;
mod flat;
pub mod rule;
pub mod walk;

use curve::Four;
use shape::{Reason, Refusal};

// No piece is cut more often than this. A number of its own, not the depth that outlines may have.
pub const FINEST: usize = 6;

// A tolerance is at most this, in micrometres.
pub const MOST_TOLERANCE: usize = 10_000;

// Why a walk ended before all its pieces were met: at a piece at the finest level that is not flat, or at a cut past the caller's most.
#[derive(Clone, Copy, Debug, PartialEq, Eq)]
pub enum Uncut {
    TooDeep,
    TooMany,
}

impl From<Uncut> for Refusal {
    ghost from_gives = { λ why refusal. refusal ≡ refusal_of why };

    fn from(why: Uncut) -> Refusal {
        match why {
            Uncut::TooDeep => Reason::NotFlat.into(),
            Uncut::TooMany => Reason::TooManyCuts.into(),
        }
    }
}

// A piece of a span: how many cuts made it, and its controls on both axes, scaled by eight with each cut.
#[derive(Clone, Copy, Debug, PartialEq, Eq)]
pub struct Piece {
    pub level: usize,
    pub x: Four,
    pub y: Four,
}

impl Piece {
    // A whole span, of which no cut was made.
    pub fn whole(x: Four, y: Four) -> Piece
        ensures { result ≡ piece 0 x y }
    {
        Piece { level: 0, x, y }
    }

    // The left half, cut at the middle.
    pub(crate) fn left_half(self) -> Piece
        requires { Halvable self }
        ensures { result ≡ left_piece self }
    {
        Piece {
            level: self.level + 1,
            x: self.x.left_half(),
            y: self.y.left_half(),
        }
    }

    // The right half. One function of a half that the caller picks would be no plainer: these two would call it.
    pub(crate) fn right_half(self) -> Piece
        requires { Halvable self }
        ensures { result ≡ right_piece self }
    {
        Piece {
            level: self.level + 1,
            x: self.x.right_half(),
            y: self.y.right_half(),
        }
    }
}

// How far a list is filled: the place of the next number, and how many of those before it are exact.
#[derive(Clone, Copy, Debug, PartialEq, Eq)]
pub struct Filled {
    pub next: usize,
    pub exact: usize,
}
