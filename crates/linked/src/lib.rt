// The calls for programs in C and Rust that link the library: drawing three ways, drawing by tolerance, the three edits and the preview. None has a `requires`: each takes any numbers and any lists to an end.
//
// What a caller in C or Rust owes, because nothing asks it of them: each list is valid for its length, that many aligned elements at a pointer that is not null, to be read, and to be written where it is
// lent for that; and no two lists of a call overlap. A list goes as two arguments, its pointer and its length in elements.
//
// A shape goes as its four numbers. An answer's `number` is 0 where the call accepted; then `place` is 0, and the figures are the call's. Else `number` and `place` are the refusal's, every figure is 0,
// and the lists are as they came. No refusal has number 0.
#![tactic(auto)]

ghost use Rattle.std.specs.Prelude.{◌≡◌};
ghost use Rattle.whole.specs.Outcome.{outcome};
ghost use Rattle.asked.specs.declared.Edit.TheVariants.{Move, Insert, Remove};
ghost use Rattle.outline.specs.Outline.{draws};
ghost use Rattle.tolerance.specs.Reading.{chooses};
ghost use Rattle.edit.specs.Reading.{edits};
ghost use Rattle.preview.specs.Preview.{previewing};
ghost use Rattle.linked.specs.Linked.{shape_of, answered, drawing_of, choosing_of, editing_of, previewing_of};

use edit::{Change, insert_record, move_record, remove_record};
use outline::{Figures, by_differences, by_halving, by_weights};
use preview::preview;
use shape::{Refusal, Shape};
use tolerance::{Steps, by_tolerance};

// The answers that C reads: a number, 0 where all is well, beside the values, since C has no `Result`.

// The answer of a drawing: how many points stand in the list now, and how many of their coordinates are exact.
#[repr(C)]
#[derive(Clone, Copy, Debug, Default, PartialEq, Eq)]
pub struct Drawing {
    pub number: usize,
    pub place: usize,
    pub points: usize,
    pub exact: usize,
}

// The answer of a drawing by tolerance: how many points stand in the list now, how many cuts chose them, and how many of their coordinates are exact.
#[repr(C)]
#[derive(Clone, Copy, Debug, Default, PartialEq, Eq)]
pub struct Choosing {
    pub number: usize,
    pub place: usize,
    pub points: usize,
    pub cuts: usize,
    pub exact: usize,
}

// The answer of an edit: the count of the new shape, whose other three numbers are those that were passed; the first span worked afresh, how many, and how many coordinates of their points are exact.
#[repr(C)]
#[derive(Clone, Copy, Debug, Default, PartialEq, Eq)]
pub struct Editing {
    pub number: usize,
    pub place: usize,
    pub count: usize,
    pub first: usize,
    pub fresh: usize,
    pub exact: usize,
}

// The answer of a preview: how many points stand in the list of doubles now.
#[repr(C)]
#[derive(Clone, Copy, Debug, Default, PartialEq, Eq)]
pub struct Previewing {
    pub number: usize,
    pub place: usize,
    pub points: usize,
}

// The shape of four numbers.
fn shape_of(basis: usize, depth: usize, count: usize, parameter: usize) -> Shape
    ensures { result ≡ shape_of basis depth count parameter }
{
    Shape {
        basis,
        depth,
        count,
        parameter,
    }
}

// What a drawing answered, as numbers.
impl From<Result<Figures, Refusal>> for Drawing {
    ghost from_gives = { λ answer numbers. numbers ≡ drawing_of answer };

    fn from(answer: Result<Figures, Refusal>) -> Drawing {
        match answer {
            Ok(figures) => Drawing {
                points: figures.points,
                exact: figures.exact,
                ..Drawing::default()
            },
            Err(refusal) => Drawing {
                number: refusal.number,
                place: refusal.place,
                ..Drawing::default()
            },
        }
    }
}

// Calls that differ in a name stand one by one: C has no generic ones.

// The outline of a shape in the lent points, by weights: `outline::by_weights`. The controls are only read, and every number past the last point keeps what it held.
#[unsafe(no_mangle)]
pub extern "C" fn quorilanth_by_weights(
    basis: usize,
    depth: usize,
    count: usize,
    parameter: usize,
    controls: &[i32],
    points: &mut [i32],
) -> Drawing
    ensures { outcome result points.new ≡ answered drawing_of (draws (shape_of basis depth count parameter) controls.now points.old) }
{
    by_weights(shape_of(basis, depth, count, parameter), controls, points).into()
}

// The same by halving: `outline::by_halving`.
#[unsafe(no_mangle)]
pub extern "C" fn quorilanth_by_halving(
    basis: usize,
    depth: usize,
    count: usize,
    parameter: usize,
    controls: &[i32],
    points: &mut [i32],
) -> Drawing
    ensures { outcome result points.new ≡ answered drawing_of (draws (shape_of basis depth count parameter) controls.now points.old) }
{
    by_halving(shape_of(basis, depth, count, parameter), controls, points).into()
}

// The same by differences: `outline::by_differences`.
#[unsafe(no_mangle)]
pub extern "C" fn quorilanth_by_differences(
    basis: usize,
    depth: usize,
    count: usize,
    parameter: usize,
    controls: &[i32],
    points: &mut [i32],
) -> Drawing
    ensures { outcome result points.new ≡ answered drawing_of (draws (shape_of basis depth count parameter) controls.now points.old) }
{
    by_differences(shape_of(basis, depth, count, parameter), controls, points).into()
}

// What a drawing by tolerance answered, as numbers.
impl From<Result<Steps, Refusal>> for Choosing {
    ghost from_gives = { λ answer numbers. numbers ≡ choosing_of answer };

    fn from(answer: Result<Steps, Refusal>) -> Choosing {
        match answer {
            Ok(steps) => Choosing {
                points: steps.points,
                cuts: steps.cuts,
                exact: steps.exact,
                ..Choosing::default()
            },
            Err(refusal) => Choosing {
                number: refusal.number,
                place: refusal.place,
                ..Choosing::default()
            },
        }
    }
}

// The outline within a tolerance, a whole number of micrometres, by at most `most` cuts: `tolerance::by_tolerance`.
#[unsafe(no_mangle)]
pub extern "C" fn quorilanth_by_tolerance(
    basis: usize,
    depth: usize,
    count: usize,
    parameter: usize,
    tolerance: usize,
    most: usize,
    controls: &[i32],
    points: &mut [i32],
) -> Choosing
    ensures { outcome result points.new ≡ answered choosing_of (chooses (shape_of basis depth count parameter) tolerance most controls.now points.old) }
{
    by_tolerance(
        shape_of(basis, depth, count, parameter),
        tolerance,
        most,
        controls,
        points,
    )
    .into()
}

// What an edit answered, as numbers.
impl From<Result<Change, Refusal>> for Editing {
    ghost from_gives = { λ answer numbers. numbers ≡ editing_of answer };

    fn from(answer: Result<Change, Refusal>) -> Editing {
        match answer {
            Ok(change) => Editing {
                count: change.shape.count,
                first: change.first,
                fresh: change.fresh,
                exact: change.exact,
                ..Editing::default()
            },
            Err(refusal) => Editing {
                number: refusal.number,
                place: refusal.place,
                ..Editing::default()
            },
        }
    }
}

// Record `place` becomes (x, y), in the lent controls and in the lent points of their outline: `edit::move_record`.
#[unsafe(no_mangle)]
pub extern "C" fn quorilanth_move(
    basis: usize,
    depth: usize,
    count: usize,
    parameter: usize,
    place: usize,
    x: i32,
    y: i32,
    controls: &mut [i32],
    points: &mut [i32],
) -> Editing
    ensures { outcome result (controls.new, points.new) ≡ answered editing_of (edits (Move x y) (shape_of basis depth count parameter) place controls.old points.old) }
{
    move_record(
        shape_of(basis, depth, count, parameter),
        place,
        x,
        y,
        controls,
        points,
    )
    .into()
}

// A new record (x, y) stands before record `place`, or last: `edit::insert_record`.
#[unsafe(no_mangle)]
pub extern "C" fn quorilanth_insert(
    basis: usize,
    depth: usize,
    count: usize,
    parameter: usize,
    place: usize,
    x: i32,
    y: i32,
    controls: &mut [i32],
    points: &mut [i32],
) -> Editing
    ensures { outcome result (controls.new, points.new) ≡ answered editing_of (edits (Insert x y) (shape_of basis depth count parameter) place controls.old points.old) }
{
    insert_record(
        shape_of(basis, depth, count, parameter),
        place,
        x,
        y,
        controls,
        points,
    )
    .into()
}

// Record `place` is taken out: `edit::remove_record`.
#[unsafe(no_mangle)]
pub extern "C" fn quorilanth_remove(
    basis: usize,
    depth: usize,
    count: usize,
    parameter: usize,
    place: usize,
    controls: &mut [i32],
    points: &mut [i32],
) -> Editing
    ensures { outcome result (controls.new, points.new) ≡ answered editing_of (edits Remove (shape_of basis depth count parameter) place controls.old points.old) }
{
    remove_record(
        shape_of(basis, depth, count, parameter),
        place,
        controls,
        points,
    )
    .into()
}

// What a preview answered, as numbers.
impl From<Result<usize, Refusal>> for Previewing {
    ghost from_gives = { λ answer numbers. numbers ≡ previewing_of answer };

    fn from(answer: Result<usize, Refusal>) -> Previewing {
        match answer {
            Ok(points) => Previewing {
                points,
                ..Previewing::default()
            },
            Err(refusal) => Previewing {
                number: refusal.number,
                place: refusal.place,
                ..Previewing::default()
            },
        }
    }
}

// The outline of a shape of basis 1 in doubles, in micrometres: `preview::preview`.
#[unsafe(no_mangle)]
pub extern "C" fn quorilanth_preview(
    basis: usize,
    depth: usize,
    count: usize,
    parameter: usize,
    controls: &[i32],
    points: &mut [f64],
) -> Previewing
    ensures { outcome result points.new ≡ answered previewing_of (previewing (shape_of basis depth count parameter) controls.now points.old) }
{
    preview(shape_of(basis, depth, count, parameter), controls, points).into()
}
