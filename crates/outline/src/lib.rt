// The outline of a shape in the lent points, three ways, and the view of one of its spans. Every public call takes any input to an end: none has a `requires`.
#![tactic(auto)]

ghost use Rattle.std.specs.Prelude.{◌≡◌, ◌+◌, ◌*◌};
ghost use Rattle.whole.specs.Outcome.{outcome};
ghost use Rattle.outline.specs.Outline.{draws, draws_plan};
ghost use Rattle.outline.specs.View.{part_of, viewed};

use shape::{Refusal, Shape, SoundShape, check_lists, check_shape};
use spans::draft::Draft;
use spans::halving::ByHalving;
use spans::stepping::ByDifferences;
use spans::way::Way;
use spans::weights::ByWeights;

// How many points stand in the list now, and how many of their coordinates are exact: the curve itself is there at a whole number. x and y are counted each by itself.
#[derive(Clone, Copy, Debug, PartialEq, Eq)]
pub struct Figures {
    pub points: usize,
    pub exact: usize,
}

// The outline of a shape: its controls are only read, all its points stand in the list from its start, and every number past them keeps what it held. A refusal
// changes nothing. This one by weights: each point by a row of the table. README names this call and the next two, with these arguments.
pub fn by_weights(shape: Shape, controls: &[i32], points: &mut [i32]) -> Result<Figures, Refusal>
    ensures { outcome result points.new ≡ draws shape controls.now points.old }
{
    draw::<ByWeights>(shape, controls, points)
}

// The same by halving: each span cut at its middle again and again.
pub fn by_halving(shape: Shape, controls: &[i32], points: &mut [i32]) -> Result<Figures, Refusal>
    ensures { outcome result points.new ≡ draws shape controls.now points.old }
{
    draw::<ByHalving>(shape, controls, points)
}

// The same by differences: three additions from point to point.
pub fn by_differences(
    shape: Shape,
    controls: &[i32],
    points: &mut [i32],
) -> Result<Figures, Refusal>
    ensures { outcome result points.new ≡ draws shape controls.now points.old }
{
    draw::<ByDifferences>(shape, controls, points)
}

// The checks of the shape, rows 1, 2, 24, 3, and the rest where they pass.
fn draw<W: Way>(shape: Shape, controls: &[i32], points: &mut [i32]) -> Result<Figures, Refusal>
    ensures { outcome result points.new ≡ draws shape controls.now points.old }
{
    let sound = SoundShape::try_from(shape)?;
    draw_plan::<W>(sound, controls, points)
}

// The checks of the lists, rows 7 to 9, and the points where they pass.
fn draw_plan<W: Way>(
    sound: SoundShape,
    controls: &[i32],
    points: &mut [i32],
) -> Result<Figures, Refusal>
    ensures { outcome result points.new ≡ draws_plan sound.shape.count sound.plan controls.now points.old }
{
    let SoundShape { shape, plan } = sound;
    let count = plan.points();
    check_lists(shape.count, controls, count, points.len())?;
    let draft = Draft { plan, controls };
    let exact = draft.fill::<W>(points, 0..plan.spans);
    Ok(Figures {
        points: count,
        exact,
    })
}

// The part of the caller's points that is a span, its 2^depth + 1 points; the empty part for a shape that 1, 2, 24 or 3 would refuse, a span that is not there, or a list
// shorter than all points. The part lies in the caller's own list: nothing is copied. An empty part and no `Option`: README promises it.
pub fn view(shape: Shape, span: usize, points: &[i32]) -> &[i32]
    ensures result_value { result.now ≡ viewed (part_of shape span points.now) points.now }
    ensures ref_ptr_value { result.ref_ptr ≡ (points.entry.ref_ptr.0, (part_of shape span points.now).start * 4 + points.entry.ref_ptr.1) }
{
    let Ok(plan) = check_shape(shape) else {
        return &points[0..0];
    };
    if plan.spans <= span {
        return &points[0..0];
    }
    if points.len() < 2 * plan.points() {
        return &points[0..0];
    }
    let stride = 2 * plan.steps();
    let start = span * stride;
    let end = start + stride + 2;
    &points[start..end]
}
