// What the three ways have in common.
ghost use Rattle.std.specs.Prelude.{◌≡◌, ◌+◌, ◌≤◌, length};
ghost use Rattle.whole.specs.Outcome.{outcome};
ghost use Rattle.curve.specs.Inner.{divisor_of};
ghost use Rattle.curve.specs.Tab.{tab};
ghost use Rattle.spans.specs.Numbers.{per_span};
ghost use Rattle.spans.specs.Inner.{paired, rounds};

use crate::span::Span;

// A way to the points of a span. Each fills the same numbers, and none knows another. Each is inlined into the loop over spans, so that a span's controls stay in registers: else a span costs 5 to 8 nanoseconds more, of 17 at depth 0.
pub trait Way {
    // The 2^depth points of a span but its end, from number `at` on. It answers how many of their numbers are exact. The list goes whole, with a place in it: of the parts that `chunks_exact_mut` lends
    // a proof knows no number afterwards.
    fn fill_span(points: &mut [i32], at: usize, span: Span) -> usize
        requires { at + per_span span.depth ≤ length points.old }
        ensures { outcome result points.new ≡ rounds (divisor_of span.bits) (tab (paired span.depth span.x span.y) 0 (per_span span.depth)) at 0 points.old };
}
