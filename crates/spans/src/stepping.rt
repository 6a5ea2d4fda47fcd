// By differences: a sum and its three differences go from step to step by additions alone.
use crate::point::put_point;
use crate::span::Span;
use crate::way::Way;
use curve::Differences;

// The way that adds.
pub struct ByDifferences;

impl Way for ByDifferences {
    #[inline(always)]
    fn fill_span(points: &mut [i32], at: usize, span: Span) -> usize {
        let steps = 1 << span.depth;
        let mut x = Differences::begin(span.x, steps);
        let mut y = Differences::begin(span.y, steps);
        let mut exact = 0;
        for step in 0..1usize << span.depth {
            exact = put_point(points, at + 2 * step, span.bits, x.value, y.value, exact);
            x = x.next();
            y = y.next();
        }
        exact
    }
}
