// The outline of a shape with its steps chosen by tolerance (document 02, request 3): each span is cut at its middle only while a piece is not flat. The one public call, `by_tolerance`, takes
// any input to an end: it has no `requires`.
#![tactic(auto)]

ghost use Rattle.std.specs.Prelude.{◌≡◌};
ghost use Rattle.whole.specs.Outcome.{outcome};
ghost use Rattle.tolerance.specs.Reading.{chooses, chooses_last, chooses_plan, cuts_of};
ghost use Rattle.tolerance.specs.Inner.{AllSound};

mod spanwise;

use pieces::MOST_TOLERANCE;
use shape::{Reason, Refusal, Shape, SoundShape, check_controls};
use spans::draft::Draft;
use spanwise::Cutting;

// How many points stand in the list now, how many cuts chose them, and how many of their coordinates are exact.
#[derive(Clone, Copy, Debug, PartialEq, Eq)]
pub struct Steps {
    pub points: usize,
    pub cuts: usize,
    pub exact: usize,
}

// The outline of a shape within a tolerance, a whole number of micrometres, by at most `most` cuts: its controls are only read, the chosen points stand in the list from its start, and every number
// past them keeps what it held. A refusal changes nothing: the cuts are counted before a number is written. The shape's depth is checked and has no other effect.
pub fn by_tolerance(
    shape: Shape,
    tolerance: usize,
    most: usize,
    controls: &[i32],
    points: &mut [i32],
) -> Result<Steps, Refusal>
    ensures { outcome result points.new ≡ chooses shape tolerance most controls.now points.old }
{
    let sound = SoundShape::try_from(shape)?;
    choose_plan(sound, tolerance, most, controls, points)
}

// The checks of the controls and of the tolerance, rows 7, 8 and 20, the walk, rows 21 and 22, and the rest where they pass.
fn choose_plan(
    sound: SoundShape,
    tolerance: usize,
    most: usize,
    controls: &[i32],
    points: &mut [i32],
) -> Result<Steps, Refusal>
    ensures { outcome result points.new ≡ chooses_plan sound.shape.count sound.plan tolerance most controls.now points.old }
{
    let SoundShape { shape, plan } = sound;
    check_controls(shape.count, controls)?;
    if MOST_TOLERANCE < tolerance {
        return Err(Reason::TooCoarse.into());
    }
    let draft = Draft { plan, controls };
    let cutting = Cutting { draft, tolerance };
    let cuts = cutting.count(most)?;
    fill_plan(&cutting, cuts, points)
}

// Room for the points, row 9, and the points where there is.
fn fill_plan(cutting: &Cutting, cuts: usize, points: &mut [i32]) -> Result<Steps, Refusal>
    requires sound { AllSound cutting.now.draft.plan cutting.now.tolerance cutting.now.draft.controls.now }
    requires cuts_value { cuts ≡ cuts_of cutting.now.draft.plan cutting.now.tolerance cutting.now.draft.controls.now }
    ensures { outcome result points.new ≡ chooses_last cutting.now.draft.plan cutting.now.tolerance cutting.now.draft.controls.now points.old }
{
    let count = cutting.draft.plan.spans + cuts + 1;
    if points.len() < 2 * count {
        return Err(Reason::ShortPoints.into());
    }
    let exact = cutting.fill(points);
    Ok(Steps {
        points: count,
        cuts,
        exact,
    })
}
