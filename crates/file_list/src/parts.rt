// The listing of a file in parts: the first line, and then the lines of one span after another, so that no more than one span's points and text is ever held. A refusal is the only part.
ghost use Rattle.std.specs.Prelude.{◌≡◌, ◌≤◌, ◌<◌, length};
ghost use Rattle.whole.specs.Outcome.{outcome};
ghost use Rattle.curve.specs.Ways.{deepest};
ghost use Rattle.shape.specs.Shape.{most_records};
ghost use Rattle.shape.specs.Refusals.{judge_shape};
ghost use Rattle.listing.specs.Written.{Within, written};
ghost use Rattle.file_list.specs.Files.{refused_text, writes};
ghost use Rattle.file_list.specs.Inner.{Copied};
ghost use Rattle.file_list.specs.Parts.{alone_basis, own_points, records_text, span_text, outline_part, only_part, shape_part, part_text, parts_of};

use crate::{LINE, count_of, put_refusal};
use curve::records::{first_record, record_at};
use curve::{Basis, MOST_STEPS};
use listing::{list_heading, list_points};
use outline::by_differences;
use shape::{B_SPLINE, LEAST_RECORDS, LOOP, Plan, Refusal, Shape, SoundShape, check_shape};

// The points of a span at the deepest, its start and its end among them, and their numbers.
const SPAN_POINTS: usize = MOST_STEPS + 1;

const SPAN_NUMBERS: usize = 2 * SPAN_POINTS;

// The numbers of a span's four records.
const OWN_NUMBERS: usize = 2 * LEAST_RECORDS;

// Room for the longest part.
pub const MOST_PART: usize = LINE * SPAN_POINTS;

// How many parts the listing of a file has, by what reading it came to.
pub fn parts_of(reading: Result<Shape, Refusal>) -> usize
    ensures { result ≡ parts_of reading }
{
    let Ok(shape) = reading else {
        return 1;
    };
    match check_shape(shape) {
        Ok(plan) => plan.spans + 1,
        Err(_) => 1,
    }
}

// Writes one part of the listing from the start of `text`, and answers how many characters it has: 0 where they do not fit, and where there is no such part. The controls are those that
// reading the file left.
pub fn list_part(
    reading: Result<Shape, Refusal>,
    part: usize,
    controls: &[i32],
    text: &mut [u8],
) -> usize
    ensures within { Within result text.new }
    ensures text_after { outcome result text.new ≡ writes (part_text reading controls.now part) text.old }
{
    count_of(put_part(reading, part, controls, text))
}

// The part itself, by what reading the file came to.
fn put_part(
    reading: Result<Shape, Refusal>,
    part: usize,
    controls: &[i32],
    text: &mut [u8],
) -> Option<usize>
    ensures { outcome result text.new ≡ written text.old 0 (part_text reading controls.now part) }
{
    match reading {
        Err(refusal) => put_only(refusal, part, text),
        Ok(shape) => put_shape_part(shape, part, controls, text),
    }
}

// The line of a refusal, which is the only part.
fn put_only(refusal: Refusal, part: usize, text: &mut [u8]) -> Option<usize>
    ensures { outcome result text.new ≡ written text.old 0 (only_part (refused_text refusal) part) }
{
    if part == 0 {
        put_refusal(refusal, text)
    } else {
        Some(0)
    }
}

// A part of a shape that is sound or not.
fn put_shape_part(shape: Shape, part: usize, controls: &[i32], text: &mut [u8]) -> Option<usize>
    ensures { outcome result text.new ≡ written text.old 0 (shape_part shape controls.now (judge_shape shape) part) }
{
    match SoundShape::try_from(shape) {
        Err(refusal) => put_only(refusal, part, text),
        Ok(sound) => put_outline_part(sound, part, controls, text),
    }
}

// A part of an outline: the first line, or a span's lines.
fn put_outline_part(
    sound: SoundShape,
    part: usize,
    controls: &[i32],
    text: &mut [u8],
) -> Option<usize>
    ensures { outcome result text.new ≡ written text.old 0 (outline_part sound.shape sound.plan controls.now part) }
{
    let SoundShape { shape, plan } = sound;
    if part == 0 {
        return list_heading(text, shape.basis, shape.depth, plan.spans, plan.points());
    }
    let span = part - 1;
    if span < plan.spans {
        put_span(sound, span, controls, text)
    } else {
        Some(0)
    }
}

// The lines of a span, drawn from a copy of its four records; none where the list lacks one of them.
fn put_span(sound: SoundShape, span: usize, controls: &[i32], text: &mut [u8]) -> Option<usize>
    requires { span < sound.plan.spans }
    ensures { outcome result text.new ≡ written text.old 0 (span_text sound.shape sound.plan controls.now span) }
{
    match own_records(controls, sound.plan.basis, span) {
        Some(own) => put_lines(sound, span, &own, text),
        None => Some(0),
    }
}

// The numbers of a span's four records, as its basis counts them; none where the list that has them ends before one.
fn own_records(controls: &[i32], basis: Basis, span: usize) -> Option<[i32; OWN_NUMBERS]>
    requires { span < most_records }
    ensures { Copied basis controls.now span result }
{
    let first = first_record(basis, span);
    let mut own = [0i32; OWN_NUMBERS];
    for q in 0..OWN_NUMBERS {
        own[q] = *controls.get(2 * record_at(basis, first + q / 2) + q % 2)?;
    }
    Some(own)
}

// The number of the basis that a span has by itself: a loop's span is a B-spline's. A shape's basis is a number, so this takes and gives one.
fn alone_basis(number: usize) -> usize
    ensures { result ≡ alone_basis number }
{
    if number == LOOP { B_SPLINE } else { number }
}

// The span drawn by itself, and the lines of its own points, numbered as in the outline; none where it is refused.
fn put_lines(sound: SoundShape, span: usize, records: &[i32], text: &mut [u8]) -> Option<usize>
    requires { span < sound.plan.spans }
    ensures { outcome result text.new ≡ written text.old 0 (records_text sound.shape sound.plan records.now span) }
{
    let SoundShape { shape, plan } = sound;
    let mut points = [0i32; SPAN_NUMBERS];
    let one = Shape {
        basis: alone_basis(shape.basis),
        count: LEAST_RECORDS,
        ..shape
    };
    let Ok(_) = by_differences(one, records, &mut points) else {
        return Some(0);
    };
    let first = span * plan.steps();
    list_points(text, first as u32, &points, own_points(plan, span))
}

// How many points a span lists: one for each of its steps, since its end is the next one's start, and the last span its end as well.
fn own_points(plan: Plan, span: usize) -> usize
    requires depth_le_deepest { plan.depth ≤ deepest }
    requires span_lt_spans { span < plan.spans }
    ensures { result ≡ own_points plan span }
{
    let steps = plan.steps();
    if span + 1 == plan.spans {
        steps + 1
    } else {
        steps
    }
}
