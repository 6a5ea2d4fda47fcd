// A plan with the controls that its spans are drawn from.
ghost use Rattle.std.specs.Prelude.{◌≡◌, ◌+◌, ◌*◌, ◌^◌, ◌≤◌, ◌<◌, pos, length};
ghost use Rattle.whole.specs.Outcome.{outcome};
ghost use Rattle.curve.specs.Limits.{Inside};
ghost use Rattle.curve.specs.Inner.{widest, divisor_of};
ghost use Rattle.curve.specs.Span.{coordinate, divisor, records, whole_controls, weighted};
ghost use Rattle.curve.specs.Ways.{deepest};
ghost use Rattle.spans.specs.Filled.{fills, fills_run};
ghost use Rattle.spans.specs.Numbers.{per_span};
ghost use Rattle.spans.specs.Inner.{ending, rounds, Drawable, Drawable-prop, Joint};

use crate::point::put_point;
use crate::span::Span;
use crate::way::Way;
use curve::Four;
use curve::records::{four_records, whole_controls};
use curve::rounding::divisor_bits;
use shape::Plan;
use std::ops::Range;

// A plan has some spans, is no deeper than outlines may be, and each of its spans can be drawn from the controls.
#[derive(Clone, Copy)]
pub struct Draft<'a> {
    pub plan: Plan,
    pub controls: &'a [i32],
    pub ghost deep: { plan.depth ≤ deepest },
    pub ghost some: { 1 ≤ plan.spans },
    pub ghost drawable: { Drawable plan controls.now } by { Drawable-prop plan controls.now },
}

// The whole controls of a span on an axis: 0 is x, 1 is y. A plan of any depth has them, so this asks for no draft.
pub fn span_controls(controls: &[i32], plan: Plan, span: usize, axis: usize) -> Four
    requires span_lt_spans { (span < plan.spans) × (axis < 2) }
    requires drawable { Drawable plan controls.now }
    ensures { result ≡ whole_controls plan.basis (records plan.basis span (coordinate controls.now axis)) }
{
    let basis = plan.basis;
    whole_controls(basis, four_records(controls, basis, span, axis))
}

// The sum at the end of a span, which is its last control alone, times 2^(3 depth) as every sum is.
fn end_sum(q: Four, depth: usize) -> i64
    requires depth_le_deepest { depth ≤ deepest }
    requires inside { Inside widest q }
    ensures { result ≡ weighted q (pos (2 ^ depth)) (pos (2 ^ depth)) }
{
    let cubed: i64 = 1 << (3 * depth);
    cubed * q.d
}

// The end of a span. It answers how many of its numbers are exact.
fn put_end(points: &mut [i32], at: usize, span: Span) -> usize
    requires { at + 2 ≤ length points.old }
    ensures { outcome result points.new ≡ rounds (divisor_of span.bits) (ending span.depth span.x span.y) at 0 points.old }
{
    let x = end_sum(span.x, span.depth);
    let y = end_sum(span.y, span.depth);
    put_point(points, at, span.bits, x, y, 0)
}

impl Draft<'_> {
    // A span, as the ways draw it.
    fn span(&self, span: usize) -> Span
        requires { span < self.now.plan.spans }
        ensures depth_value { (result.depth ≡ self.now.plan.depth) × (divisor_of result.bits ≡ divisor self.now.plan.basis self.now.plan.depth) }
        ensures x_value { result.x ≡ whole_controls self.now.plan.basis (records self.now.plan.basis span (coordinate self.now.controls.now 0)) }
        ensures y_value { result.y ≡ whole_controls self.now.plan.basis (records self.now.plan.basis span (coordinate self.now.controls.now 1)) }
    {
        let plan = self.plan;
        Span {
            depth: plan.depth,
            bits: divisor_bits(plan.basis, plan.depth),
            x: span_controls(self.controls, plan, span, 0),
            y: span_controls(self.controls, plan, span, 1),
        }
    }

    // The spans of a run by a way, and the end of the last of them. It answers how many of their numbers are exact.
    pub fn fill<W: Way>(&self, points: &mut [i32], run: Range<usize>) -> usize
        requires among { (run.start < run.end) × (run.end ≤ self.now.plan.spans) }
        requires room { run.end * per_span self.now.plan.depth + 2 ≤ length points.old }
        ensures { outcome result points.new ≡ fills_run self.now.plan run.start run.end self.now.controls.now points.old }
    {
        // Through the reference the plan would be read again for each span: a tenth more of a call at depth 0.
        let draft = *self;
        let stride = 2usize << draft.plan.depth;
        let last = run.end - 1;
        let mut exact = 0;
        for span in run.start..last {
            exact += W::fill_span(points, span * stride, draft.span(span));
        }
        // The last span's controls give its end too.
        let ending = draft.span(last);
        exact += W::fill_span(points, last * stride, ending);
        exact + put_end(points, run.end * stride, ending)
    }

    // The point where the first and the last span of a loop meet, which is the end of the last one, at one of its two places. It answers how many of its numbers are exact.
    pub fn put_joint(&self, points: &mut [i32], at: usize) -> usize
        requires { Joint self.now.plan at × (at + 2 ≤ length points.old) }
        ensures { outcome result points.new ≡ fills self.now.plan self.now.controls.now at 2 points.old }
    {
        put_end(points, at, self.span(self.plan.spans - 1))
    }
}
