// By weights: each point is a sum by a row of the table.
ghost use Rattle.std.specs.Prelude.{◌≡◌, ◌≤◌, ◌^◌, pos};
ghost use Rattle.curve.specs.Limits.{Inside};
ghost use Rattle.curve.specs.Inner.{widest};
ghost use Rattle.curve.specs.Span.{weighted};
ghost use Rattle.curve.specs.Ways.{deepest};

use crate::point::put_point;
use crate::span::Span;
use crate::way::Way;
use curve::weights::weighted_sum;
use curve::{DEEPEST, Four, MOST_STEPS};

// The way that reads the table of weights.
pub struct ByWeights;

// The sum of a span at a step. Depth k uses every 2^(8-k)-th row of the table, and such a row gives the sum 2^(3(8-k)) times as large, so that nothing is lost by the shift.
fn table_sum(q: Four, depth: usize, step: usize) -> i64
    requires inside { Inside widest q }
    requires step_bound { (depth ≤ deepest) × (step ≤ 2 ^ depth) }
    ensures { result ≡ weighted q (pos step) (pos (2 ^ depth)) }
{
    let apart = MOST_STEPS >> depth;
    weighted_sum(q, step * apart) >> (3 * (DEEPEST - depth))
}

impl Way for ByWeights {
    // Steps and rows are counted by the table's: where both are a shifted 1, the compiled loop shifts twice more a point, and a point costs a fifth more.
    #[inline(always)]
    fn fill_span(points: &mut [i32], at: usize, span: Span) -> usize {
        let mut exact = 0;
        for step in 0..MOST_STEPS >> (DEEPEST - span.depth) {
            let x = table_sum(span.x, span.depth, step);
            let y = table_sum(span.y, span.depth, step);
            exact = put_point(points, at + 2 * step, span.bits, x, y, exact);
        }
        exact
    }
}
