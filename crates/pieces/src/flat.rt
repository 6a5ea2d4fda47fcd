// Whether a piece is flat.
ghost use Rattle.std.specs.Prelude.{◌≡◌, ◌^◌, ◌≤◌, pos, nat_abs, ◌+ℤ◌, ◌-ℤ◌, ◌*ℤ◌};
ghost use Rattle.curve.specs.Bend.{bend};
ghost use Rattle.curve.specs.Limits.{Inside};
ghost use Rattle.curve.specs.Span.{divisor};
ghost use Rattle.pieces.specs.Tree.{finest, flat_on, is_flat};
ghost use Rattle.pieces.specs.Inner.{Halvable};

use crate::Piece;
use crate::rule::Rule;
use curve::rounding::divisor_bits;
use curve::{Four, SIX};

// The second difference of three controls in a row, in size.
fn second_difference(a: i64, b: i64, c: i64) -> u64
    requires { (nat_abs a ≤ 2 ^ 59) × (nat_abs b ≤ 2 ^ 59) × (nat_abs c ≤ 2 ^ 59) }
    ensures { result ≡ nat_abs (a -ℤ pos 2 *ℤ b +ℤ c) }
{
    (a - 2 * b + c).unsigned_abs()
}

// The larger, in size, of the two second differences of four controls.
fn bend_of(q: Four) -> u64
    requires { Inside (2 ^ 59) q }
    ensures { result ≡ bend q }
{
    let first = second_difference(q.a, q.b, q.c);
    let last = second_difference(q.b, q.c, q.d);
    first.max(last)
}

// Whether three times that is at most four times the tolerance, over the divisor of a level.
fn is_flat_on(rule: Rule, q: Four, level: usize) -> bool
    requires inside { Inside (2 ^ 59) q }
    requires level_le_finest { level ≤ finest }
    ensures { result ≡ flat_on (divisor rule.basis level) rule.tolerance q }
{
    let divisor = (SIX as u64) << divisor_bits(rule.basis, level);
    3 * bend_of(q) <= 4 * (rule.tolerance as u64 * divisor)
}

impl Piece {
    // Whether a piece is flat: on both axes.
    pub(crate) fn is_flat(self, rule: Rule) -> bool
        requires { Halvable self }
        ensures { result ≡ is_flat (divisor rule.basis) rule.tolerance self }
    {
        is_flat_on(rule, self.x, self.level) && is_flat_on(rule, self.y, self.level)
    }
}
