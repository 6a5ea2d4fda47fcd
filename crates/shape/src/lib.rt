// Shapes, refusals, and the checks that calls share. No call here has a `requires`, but those that say so: they are for crates of this project that have checked it.
#![tactic(auto)]

ghost use Rattle.std.specs.Prelude.{cond, None, Some, ◌≡◌, ◌+◌, ◌*◌, ◌^◌, ◌≤◌, ◌<◌, length};
ghost use Rattle.curve.specs.Ways.{deepest};
ghost use Rattle.shape.specs.Shape.{sixty_fourths, basis_of, tail, spans_of, last_using, records_of, allowed, points_of, most_records, most_points};
ghost use Rattle.shape.specs.Refusals.{judge_numbers, judge_shape, judge_controls, judge_lists, outside, first_outside};

mod reason;
mod sound;

use curve::bounds::is_beyond;
use curve::records::{first_record, is_loop, stride_of};
use curve::{Basis, DEEPEST, LIMIT, MOST_PARAMETER};
pub use reason::Reason;
pub use sound::SoundShape;

// A shape as a caller passes it: basis, depth, control count and parameter, right or wrong. The parameter is looked at for basis 3 alone, and is handed on as it came.
// These are numbers and no enums: each wrong one has its refusal, so a type may not leave it out.
#[derive(Clone, Copy, Debug, PartialEq, Eq)]
pub struct Shape {
    pub basis: usize,
    pub depth: usize,
    pub count: usize,
    pub parameter: usize,
}

// A shape that was found sound: its basis, its depth and its spans.
#[derive(Clone, Copy, Debug, PartialEq, Eq)]
pub struct Plan {
    pub basis: Basis,
    pub depth: usize,
    pub spans: usize,
}

// A refusal of document 01: its number, and the place. The number is one and no `Reason`: the call of C hands it on, and README's `list_part` lists whatever number it is given.
#[derive(Clone, Copy, Debug, PartialEq, Eq)]
pub struct Refusal {
    pub number: usize,
    pub place: usize,
}

impl Plan {
    // The steps of a span: 2^k.
    pub fn steps(self) -> usize
        requires { self.depth ≤ deepest }
        ensures { result ≡ 2 ^ self.depth }
    {
        1 << self.depth
    }

    // The points of the outline: m·2^k + 1.
    #[tactic(auto, unfolding(crate::specs::Shape::points_of))]
    pub fn points(self) -> usize
        requires { (self.depth ≤ deepest) × (self.spans ≤ most_records) }
        ensures { result ≡ points_of self.depth self.spans }
    {
        self.spans * self.steps() + 1
    }
}

// The bases are numbered from 1 to 5: four of document 01, and the loop.
const FIRST_BASIS: usize = 1;

const LAST_BASIS: usize = 5;

// The numbers of those that are spoken of alone: the open B-spline, the one that has a parameter, and the loop.
pub const B_SPLINE: usize = 2;

const CARDINAL: usize = 3;

pub const LOOP: usize = 5;

// The parameter that nought stands for, one half in 64ths.
const ONE_HALF: usize = 32;

// A span takes four records, whatever the basis, and a loop has four at least; n is at most 64.
pub const LEAST_RECORDS: usize = 4;

pub const MOST_RECORDS: usize = 64;

// A parameter in 64ths, where nought stands for one half.
#[tactic(auto, unfolding(crate::specs::Shape::sixty_fourths))]
fn sixty_fourths(parameter: usize) -> usize
    ensures { result ≡ sixty_fourths parameter }
{
    if parameter == 0 { ONE_HALF } else { parameter }
}

// The basis of a number from 1 to 5, the cardinal one with its parameter, the loop with its control count.
#[tactic(auto, unfolding(crate::specs::Shape::basis_of))]
fn basis_of(number: usize, parameter: usize, count: usize) -> Basis
    ensures { result ≡ basis_of number parameter count }
{
    match number {
        1 => Basis::Bezier,
        2 => Basis::BSpline,
        3 => Basis::Cardinal(sixty_fourths(parameter)),
        4 => Basis::Hermite,
        _ => Basis::Loop(count),
    }
}

// The records past the last span's stride; a loop has none besides its first ones again.
fn tail_of(basis: Basis) -> usize
    ensures { result ≡ tail basis }
{
    if is_loop(basis) {
        0
    } else {
        LEAST_RECORDS - stride_of(basis)
    }
}

// The spans of `count` records: of an open basis, those that have all four of theirs among the first `count`.
#[tactic(auto, unfolding(crate::specs::Shape::spans_of))]
pub fn spans_of(basis: Basis, count: usize) -> usize
    requires { count ≤ most_records }
    ensures { result ≡ spans_of basis count }
{
    count.saturating_sub(tail_of(basis)) / stride_of(basis)
}

// The last span that uses record `place` of an open basis; the first is `spans_of` of the same number.
#[tactic(auto, unfolding(crate::specs::Shape::last_using))]
pub fn last_using(basis: Basis, place: usize) -> usize
    requires { place ≤ most_records }
    ensures { result ≡ last_using basis place }
{
    place / stride_of(basis)
}

// The records of a number of spans.
#[tactic(auto, unfolding(crate::specs::Shape::records_of, curve::specs::Span::first_record))]
fn records_of(basis: Basis, spans: usize) -> usize
    requires { spans ≤ most_records }
    ensures { result ≡ records_of basis spans }
{
    first_record(basis, spans) + tail_of(basis)
}

// The spans of a number of records that is allowed for the basis; none where it is not.
#[tactic(auto, unfolding(crate::specs::Shape::allowed))]
fn allowed_spans(basis: Basis, count: usize) -> Option<usize>
    ensures { result ≡ cond (allowed basis count) (Some (spans_of basis count)) None }
{
    if !(LEAST_RECORDS..=MOST_RECORDS).contains(&count) {
        return None;
    }
    let spans = spans_of(basis, count);
    if records_of(basis, spans) != count {
        return None;
    }
    Some(spans)
}

// The checks of a shape's basis, depth and parameter in the paper's order, 1, 2, 24.
#[tactic(auto, unfolding(crate::specs::Refusals::judge_numbers, crate::specs::Refusals::judge))]
fn check_numbers(shape: Shape) -> Result<(), Refusal>
    ensures { result ≡ judge_numbers shape }
{
    if !(FIRST_BASIS..=LAST_BASIS).contains(&shape.basis) {
        return Err(Reason::UnknownBasis.into());
    }
    if DEEPEST < shape.depth {
        return Err(Reason::TooDeep.into());
    }
    if shape.basis == CARDINAL && MOST_PARAMETER < shape.parameter {
        return Err(Reason::TooTaut.into());
    }
    Ok(())
}

// The checks of a shape in the paper's order, 1, 2, 24, 3: whatever numbers it holds, a refusal or the plan.
#[tactic(auto, unfolding(crate::specs::Refusals::judge_shape, crate::specs::Refusals::judge_numbers, crate::specs::Refusals::plan_of, crate::specs::Refusals::judge))]
pub fn check_shape(shape: Shape) -> Result<Plan, Refusal>
    ensures { result ≡ judge_shape shape }
{
    check_numbers(shape)?;
    let basis = basis_of(shape.basis, shape.parameter, shape.count);
    let spans = allowed_spans(basis, shape.count).ok_or(Reason::WrongCount)?;
    Ok(Plan {
        basis,
        depth: shape.depth,
        spans,
    })
}

// Whether the record at a place of the list has a coordinate outside the limits.
#[tactic(auto, unfolding(crate::specs::Refusals::outside, curve::specs::Span::coordinate))]
fn is_outside(controls: &[i32], place: usize) -> bool
    requires { 2 * place + 1 < length controls.now }
    ensures { result ≡ outside controls.now place }
{
    let x = controls[2 * place];
    let y = controls[2 * place + 1];
    is_beyond(x, LIMIT) || is_beyond(y, LIMIT)
}

// The first of `count` records with a coordinate outside the limits, or `count` where all are inside. It stays a number: docs/PROMISES.md names this call, and its contract says which number it answers.
pub fn first_outside(controls: &[i32], count: usize) -> usize
    requires { 2 * count ≤ length controls.now }
    ensures { result ≡ first_outside controls.now count }
{
    for i in 0..count {
        if is_outside(controls, i) {
            return i;
        }
    }
    count
}

// The checks of the lent controls in the paper's order, 7 and 8: `count` records in the list, inside the limits. For crates that have checked the shape.
#[tactic(auto, unfolding(crate::specs::Refusals::judge_controls, crate::specs::Refusals::judge))]
pub fn check_controls(count: usize, controls: &[i32]) -> Result<(), Refusal>
    requires { count ≤ most_records }
    ensures { result ≡ judge_controls count controls.now }
{
    if controls.len() < 2 * count {
        return Err(Reason::ShortControls.into());
    }
    let at = first_outside(controls, count);
    if at < count {
        return Err(Reason::OutsideLimits.at(at));
    }
    Ok(())
}

// The checks of the lent lists, 7, 8, 9: the controls, and room for `points` points in a list of `len` numbers. For crates that have checked the shape. That list goes by its length, since the preview's holds doubles.
#[tactic(auto, unfolding(crate::specs::Refusals::judge_lists, crate::specs::Refusals::judge_controls, crate::specs::Refusals::judge))]
pub fn check_lists(count: usize, controls: &[i32], points: usize, len: usize) -> Result<(), Refusal>
    requires { (count ≤ most_records) × (points ≤ most_points) }
    ensures { result ≡ judge_lists count controls.now points len }
{
    check_controls(count, controls)?;
    if len < 2 * points {
        return Err(Reason::ShortPoints.into());
    }
    Ok(())
}
