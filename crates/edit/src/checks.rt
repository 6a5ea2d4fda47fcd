// The checks of an edit: what is asked, and the lent lists.
ghost use Rattle.std.specs.Prelude.{◌≡◌, ◌≤◌};
ghost use Rattle.shape.specs.Shape.{most_records, most_points};
ghost use Rattle.edit.specs.Reading.{judge_ask, judge_room};
ghost use Rattle.edit.specs.Inner.{Vetted};

use asked::Edit;
use curve::Basis;
use curve::records::recounted;
use shape::{Plan, Reason, Refusal, Shape, check_shape, first_outside};

// The checks of what is asked in the paper's order, 4, 5, 6.
fn check_ask(edit: Edit, basis: Basis, place: usize, count: usize) -> Result<(), Refusal>
    ensures { result ≡ judge_ask edit basis place count }
{
    if !edit.is_offered(basis) {
        return Err(Reason::NotOffered.into());
    }
    if !edit.is_in_range(place, count) {
        return Err(Reason::NoSuchRecord.at(place));
    }
    if edit.is_at_the_end(count) {
        return Err(Reason::CountAtItsLimit.into());
    }
    Ok(())
}

// The checks of the lent lists in the paper's order, 7, 8, 8 for the new record, 9.
fn check_room(
    edit: Edit,
    count: usize,
    controls: &[i32],
    most: usize,
    len: usize,
) -> Result<(), Refusal>
    requires { (1 ≤ count) × (count ≤ most_records) × (most ≤ most_points) }
    ensures { result ≡ judge_room edit count controls.now most len }
{
    if controls.len() < 2 * count.max(edit.count_after(count)) {
        return Err(Reason::ShortControls.into());
    }
    let outside = first_outside(controls, count);
    if outside < count {
        return Err(Reason::OutsideLimits.at(outside));
    }
    if edit.is_new_outside() {
        return Err(Reason::OutsideLimits.at(count));
    }
    if len < 2 * most {
        return Err(Reason::ShortPoints.into());
    }
    Ok(())
}

// All checks of an edit in the paper's order, 1 to 9 with 24 after 2: a refusal, or the plan of the new shape.
pub(crate) fn check_edit(
    edit: Edit,
    shape: Shape,
    place: usize,
    controls: &[i32],
    points: &[i32],
) -> Result<Plan, Refusal>
    ensures { Vetted edit shape place controls.now points.now result }
{
    let plan = check_shape(shape)?;
    let basis = plan.basis;
    check_ask(edit, basis, place, shape.count)?;
    let spans = edit.spans_after(plan.spans);
    let next = Plan {
        basis: recounted(spans, basis),
        depth: plan.depth,
        spans,
    };
    let most = plan.points().max(next.points());
    check_room(edit, shape.count, controls, most, points.len())?;
    Ok(next)
}
