// The walk from the left, which counts the cuts and writes nothing.
ghost use Rattle.std.specs.Prelude.{◌≡◌};
ghost use Rattle.pieces.specs.Walk.{walk};
ghost use Rattle.pieces.specs.Inner.{tree_at, Walkable};

use crate::rule::Rule;
use crate::{FINEST, Piece, Uncut};

// The walk of a piece and all below it, where `made` cuts were made before: how many there are by its end.
pub fn count_cuts(piece: Piece, rule: Rule, most: usize, made: usize) -> Result<usize, Uncut>
    requires { Walkable rule.basis piece.level piece.x piece.y }
    ensures { result ≡ walk most made (tree_at rule.basis rule.tolerance piece.level piece.x piece.y) }
{
    if piece.is_flat(rule) {
        return Ok(made);
    }
    if piece.level == FINEST {
        return Err(Uncut::TooDeep);
    }
    if most <= made {
        return Err(Uncut::TooMany);
    }
    let so_far = count_cuts(piece.left_half(), rule, most, made + 1)?;
    count_cuts(piece.right_half(), rule, most, so_far)
}
