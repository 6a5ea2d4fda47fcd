// The points of an edited outline: the spans it names worked afresh, the others kept or carried.
ghost use Rattle.std.specs.Prelude.{true, cond, ◌≡◌, ◌+◌, ◌*◌, ◌-◌, ◌≤◌, ◌<◌, eqb, length};
ghost use Rattle.curve.specs.Span.{is_loop};
ghost use Rattle.curve.specs.Ways.{deepest};
ghost use Rattle.whole.specs.Outcome.{outcome};
ghost use Rattle.spans.specs.Numbers.{per_span};
ghost use Rattle.spans.specs.Filled.{filled, fills_run};
ghost use Rattle.spans.specs.Inner.{Drawable};
ghost use Rattle.edit.specs.Inner.{Carriable, HasRoom, Runnable, StretchOf, fills_ends, refreshes};
ghost use Rattle.asked.specs.Edits.{exact_fresh, past_fresh, point_at, run_of};

use crate::carrying::carry;
use asked::Run;
use asked::afresh::Placed;
use curve::records::is_loop;
use spans::draft::Draft;
use spans::weights::ByWeights;
use std::ops::Range;

// The first span of a run, counted from the list's end: a run that begins with span 0 begins where the last span ends.
fn first_or_end(first: usize, spans: usize) -> usize
    ensures { result ≡ cond (eqb first 0) spans first }
{
    if first == 0 { spans } else { first }
}

// The spans of a stretch of a loop, and the end of the last of them; where there is none, the point where the first and the last span meet.
fn fill_stretch(draft: &Draft, stretch: Range<usize>, points: &mut [i32]) -> usize
    requires { StretchOf draft.now.plan stretch.start stretch.end (length points.old) }
    ensures { outcome result points.new ≡ fills_run draft.now.plan stretch.start stretch.end draft.now.controls.now points.old }
{
    if !stretch.is_empty() {
        return draft.fill::<ByWeights>(points, stretch);
    }
    let place = stretch.start * (2 * draft.plan.steps());
    draft.put_joint(points, place)
}

// The spans of a loop from `from` to the list's end, and those from its start up to, and not with, `to`.
fn fill_ends(draft: &Draft, from: usize, to: usize, points: &mut [i32]) -> usize
    requires closed { is_loop draft.now.plan.basis ≡ true }
    requires apart { (to < from) × (from ≤ draft.now.plan.spans) }
    requires room { HasRoom draft.now.plan (length points.old) }
    ensures { outcome result points.new ≡ fills_ends draft.now.plan draft.now.controls.now from to points.old }
{
    let last = fill_stretch(draft, from..draft.plan.spans, points);
    last + fill_stretch(draft, 0..to, points)
}

// The spans of a loop's run. Where it has the first span, or the last, both places of the point where they meet are worked.
fn rework_round(draft: &Draft, run: Run, points: &mut [i32]) -> usize
    requires closed { is_loop draft.now.plan.basis ≡ true }
    requires among { (0 < run.count) × (run.first < draft.now.plan.spans) × (run.count ≤ draft.now.plan.spans) }
    requires room { HasRoom draft.now.plan (length points.old) }
    ensures { outcome result points.new ≡ refreshes run draft.now.plan draft.now.controls.now points.old }
{
    let spans = draft.plan.spans;
    if spans <= run.count {
        return draft.fill::<ByWeights>(points, 0..spans);
    }
    let from = first_or_end(run.first, spans);
    let past = from + run.count;
    if past < spans {
        return draft.fill::<ByWeights>(points, from..past);
    }
    fill_ends(draft, from, past - spans, points)
}

// The spans of a run, where it has any, and how many of their numbers are exact. The room is said of a draft and a list together, here and above, and no type has both.
fn rework(draft: &Draft, run: Run, points: &mut [i32]) -> usize
    requires runnable { Runnable run draft.now.plan }
    requires room { HasRoom draft.now.plan (length points.old) }
    ensures { outcome result points.new ≡ refreshes run draft.now.plan draft.now.controls.now points.old }
{
    if run.count == 0 {
        return 0;
    }
    if is_loop(draft.plan.basis) {
        return rework_round(draft, run, points);
    }
    draft.fill::<ByWeights>(points, run.first..run.first + run.count)
}

// All points of the outline that an edit asks for, from the points it was given: `controls` are the new ones. It answers how many numbers of the fresh spans are exact.
pub(crate) fn work(placed: Placed, controls: &[i32], points: &mut [i32]) -> usize
    requires deep { (placed.plan.depth ≤ deepest) × (1 ≤ placed.plan.spans) }
    requires drawable { Drawable placed.plan controls.now }
    requires runnable { Runnable (run_of placed.edit placed.plan placed.place) placed.plan }
    requires room { HasRoom placed.plan (length points.old) }
    requires carriable { Carriable placed.edit (past_fresh placed.edit placed.plan placed.place) placed.plan.spans (per_span placed.plan.depth) (length points.old) }
    ensures value { result ≡ exact_fresh (run_of placed.edit placed.plan placed.place) placed.plan controls.now }
    ensures points_after { points.new ≡ filled (point_at placed.edit placed.plan placed.place controls.now points.old) 0 (placed.plan.spans * per_span placed.plan.depth + 2) points.old }
{
    carry(placed, points);
    let draft = Draft {
        plan: placed.plan,
        controls,
    };
    rework(&draft, placed.run(), points)
}
