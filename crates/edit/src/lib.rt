// Editing an outline: move, insert and remove of one record, and what they leave in the lent controls and points. Every public call takes any input to an end: none
// has a `requires`.
#![tactic(auto)]

mod carrying;
mod checks;
mod working;

ghost use Rattle.std.specs.Prelude.{Ok, true, ◌≡◌, ◌≤◌, length};
ghost use Rattle.whole.specs.Outcome.{outcome};
ghost use Rattle.curve.specs.Span.{is_loop};
ghost use Rattle.shape.specs.Shape.{least_records, most_records};
ghost use Rattle.edit.specs.Reading.{accepts, change, edits};
ghost use Rattle.edit.specs.Inner.{Workable};

pub use asked::Edit;
use asked::afresh::Placed;
use checks::check_edit;
use shape::{Plan, Refusal, Shape};
use working::work;

// What an accepted edit answers: the new shape, the first span worked afresh, how many, and how many coordinates of their points are exact. Kept and carried points are not counted.
#[derive(Clone, Copy, Debug, PartialEq, Eq)]
pub struct Change {
    pub shape: Shape,
    pub first: usize,
    pub fresh: usize,
    pub exact: usize,
}

// Record `place` becomes (x, y), for every basis. The controls and all points of the outline stand in the lent lists, and the new ones do afterwards: the spans that use
// the record are worked afresh, every other number keeps its value. A refusal changes nothing.
pub fn move_record(
    shape: Shape,
    place: usize,
    x: i32,
    y: i32,
    controls: &mut [i32],
    points: &mut [i32],
) -> Result<Change, Refusal>
    ensures { outcome result (controls.new, points.new) ≡ edits (Edit.Move x y) shape place controls.old points.old }
{
    edit_shape(Edit::Move(x, y), shape, place, controls, points)
}

// A new record (x, y) stands before record `place`, or last; for bases 2, 3 and 5. The spans after the fresh ones are carried on by one span.
pub fn insert_record(
    shape: Shape,
    place: usize,
    x: i32,
    y: i32,
    controls: &mut [i32],
    points: &mut [i32],
) -> Result<Change, Refusal>
    ensures { outcome result (controls.new, points.new) ≡ edits (Edit.Insert x y) shape place controls.old points.old }
{
    edit_shape(Edit::Insert(x, y), shape, place, controls, points)
}

// Record `place` is taken out, for bases 2, 3 and 5. The spans after the fresh ones are carried back by one span.
pub fn remove_record(
    shape: Shape,
    place: usize,
    controls: &mut [i32],
    points: &mut [i32],
) -> Result<Change, Refusal>
    ensures { outcome result (controls.new, points.new) ≡ edits Edit.Remove shape place controls.old points.old }
{
    edit_shape(Edit::Remove, shape, place, controls, points)
}

// The checks, rows 1 to 9 with 24 after 2, and the edit itself where they pass.
fn edit_shape(
    edit: Edit,
    shape: Shape,
    place: usize,
    controls: &mut [i32],
    points: &mut [i32],
) -> Result<Change, Refusal>
    ensures { outcome result (controls.new, points.new) ≡ edits edit shape place controls.old points.old }
{
    let plan = check_edit(edit, shape, place, controls, points)?;
    Ok(edit_lists(edit, shape, plan, place, controls, points))
}

// The new controls and the new points, in the lent lists themselves, and the answer: nothing is refused any more.
fn edit_lists(
    edit: Edit,
    shape: Shape,
    plan: Plan,
    place: usize,
    controls: &mut [i32],
    points: &mut [i32],
) -> Change
    requires { Workable edit shape plan place controls.old (length points.old) }
    ensures { outcome (Ok result) (controls.new, points.new) ≡ accepts edit shape plan place controls.old points.old }
{
    edit.ask(place, shape.count, controls);
    let placed = Placed { edit, place, plan };
    let exact = work(placed, controls, points);
    change_of(placed, shape, exact)
}

// The answer of an accepted edit, of which working it counted `exact` numbers.
fn change_of(placed: Placed, shape: Shape, exact: usize) -> Change
    requires count { (1 ≤ shape.count) × (shape.count ≤ most_records) }
    requires spans { (placed.plan.spans ≤ most_records) × (is_loop placed.plan.basis ≡ true → least_records ≤ placed.plan.spans) }
    ensures { result ≡ change placed.edit shape placed.plan placed.place exact }
{
    let run = placed.run();
    Change {
        shape: Shape {
            count: placed.edit.count_after(shape.count),
            ..shape
        },
        first: run.first,
        fresh: run.count,
        exact,
    }
}
