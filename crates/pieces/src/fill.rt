// The starts of the flat pieces in the lent list.
ghost use Rattle.std.specs.Prelude.{◌≡◌, ◌+◌, ◌≤◌, length};
ghost use Rattle.whole.specs.Outcome.{outcome};
ghost use Rattle.curve.specs.Span.{divisor};
ghost use Rattle.pieces.specs.Tree.{Sound};
ghost use Rattle.pieces.specs.Values.{starts};
ghost use Rattle.pieces.specs.Inner.{tree_at, writes, Walkable};

use crate::rule::Rule;
use crate::{Filled, Piece};
use curve::rounding::divisor_bits;
use spans::point::put_point;

// The starts of the flat pieces of a piece that the walk has found sound, from the left.
pub fn fill_starts(points: &mut [i32], filled: Filled, piece: Piece, rule: Rule) -> Filled
    requires walkable { Walkable rule.basis piece.level piece.x piece.y × Sound (tree_at rule.basis rule.tolerance piece.level piece.x piece.y) }
    requires exact_le_next { (filled.exact ≤ filled.next) × (filled.next + length (starts (divisor rule.basis) (tree_at rule.basis rule.tolerance piece.level piece.x piece.y)) ≤ length points.old) }
    ensures { outcome result points.new ≡ writes (starts (divisor rule.basis) (tree_at rule.basis rule.tolerance piece.level piece.x piece.y)) filled points.old }
{
    if piece.is_flat(rule) {
        let at = filled.next;
        let bits = divisor_bits(rule.basis, piece.level);
        let exact = put_point(points, at, bits, piece.x.a, piece.y.a, filled.exact);
        return Filled {
            next: at + 2,
            exact,
        };
    }
    let on_left = fill_starts(points, filled, piece.left_half(), rule);
    fill_starts(points, on_left, piece.right_half(), rule)
}
