// By halving: a span is cut at its middle again and again until the depth is used up; the pieces' starts are the points.
ghost use Rattle.std.specs.Prelude.{◌≡◌, ◌+◌, ◌≤◌, length};
ghost use Rattle.whole.specs.Outcome.{outcome};
ghost use Rattle.curve.specs.Tab.{tab};
ghost use Rattle.curve.specs.Inner.{divisor_of, most_bits};
ghost use Rattle.curve.specs.Ways.{deepest};
ghost use Rattle.spans.specs.Numbers.{per_span};
ghost use Rattle.spans.specs.Inner.{paired, rounds, Cuttable};

use crate::point::put_point;
use crate::span::Span;
use crate::way::Way;
use curve::Four;

// The way that halves.
pub struct ByHalving;

// The 2^left starts of the pieces of a piece with `left` more cuts to make, from number `at` on. It answers how many of their numbers are exact. Two halves lent apart by `split_at_mut` would each need the length that `left` gives already.
fn fill_pieces(points: &mut [i32], at: usize, left: usize, bits: u32, x: Four, y: Four) -> usize
    requires left_le_deepest { (left ≤ deepest) × (bits ≤ most_bits) }
    requires cuttable { Cuttable left (divisor_of bits) x × Cuttable left (divisor_of bits) y }
    requires left_in_bounds { at + per_span left ≤ length points.old }
    ensures { outcome result points.new ≡ rounds (divisor_of bits) (tab (paired left x y) 0 (per_span left)) at 0 points.old }
{
    if left == 0 {
        return put_point(points, at, bits, x.a, y.a, 0);
    }
    let half: usize = 1 << left;
    let on_left = fill_pieces(points, at, left - 1, bits, x.left_half(), y.left_half());
    let on_right = fill_pieces(
        points,
        at + half,
        left - 1,
        bits,
        x.right_half(),
        y.right_half(),
    );
    on_left + on_right
}

impl Way for ByHalving {
    #[inline(always)]
    fn fill_span(points: &mut [i32], at: usize, span: Span) -> usize {
        fill_pieces(points, at, span.depth, span.bits, span.x, span.y)
    }
}
