// The listing of a file whose outline has steps chosen by tolerance, written whole.
ghost use Rattle.std.specs.Prelude.{◌≡◌};
ghost use Rattle.whole.specs.Outcome.{outcome};
ghost use Rattle.listing.specs.Written.{Within, written};
ghost use Rattle.file_list.specs.Files.{by_tolerance, cut_file_text, writes};

use crate::{LINE, MOST_SPANS, count_of, put_refusal};
use listing::list_chosen;
use pieces::FINEST;
use record_file::{MOST_CONTROLS, read};
use shape::{Shape, SoundShape};
use tolerance::by_tolerance;

// The most points that can be chosen, and their numbers.
const MOST_CHOSEN: usize = MOST_SPANS * (1 << FINEST) + 1;

const MOST_NUMBERS: usize = 2 * MOST_CHOSEN;

// A heading has at most 21 characters.
const HEADING: usize = 21;

// Room for the longest listing.
pub const MOST_TEXT: usize = HEADING + LINE * MOST_CHOSEN;

// Writes the listing of a file with steps chosen by tolerance and at most so many cuts, or the line of its refusal, from the start of `text`, and answers how many characters it has: 0
// where they do not fit.
pub fn cut_file(file: &[u8], tolerance: usize, most: usize, text: &mut [u8]) -> usize
    ensures within { Within result text.new }
    ensures text_after { outcome result text.new ≡ writes (cut_file_text tolerance most file.now) text.old }
{
    count_of(put_file(file, tolerance, most, text))
}

// The file's records as controls, and the listing of their shape.
fn put_file(file: &[u8], tolerance: usize, most: usize, text: &mut [u8]) -> Option<usize>
    ensures { outcome result text.new ≡ written text.old 0 (cut_file_text tolerance most file.now) }
{
    let mut controls = [0i32; MOST_CONTROLS];
    match read(file, &mut controls) {
        Err(refusal) => put_refusal(refusal, text),
        Ok(shape) => put_shape(shape, tolerance, most, &controls, text),
    }
}

// The spans of a shape, which the heading names, and the listing of its outline.
fn put_shape(
    shape: Shape,
    tolerance: usize,
    most: usize,
    controls: &[i32],
    text: &mut [u8],
) -> Option<usize>
    ensures { outcome result text.new ≡ written text.old 0 (by_tolerance tolerance most shape controls.now) }
{
    match SoundShape::try_from(shape) {
        Err(refusal) => put_refusal(refusal, text),
        Ok(sound) => put_chosen(sound, tolerance, most, controls, text),
    }
}

// The outline of a sound shape, listed.
fn put_chosen(
    sound: SoundShape,
    tolerance: usize,
    most: usize,
    controls: &[i32],
    text: &mut [u8],
) -> Option<usize>
    ensures { outcome result text.new ≡ written text.old 0 (by_tolerance tolerance most sound.shape controls.now) }
{
    let SoundShape { shape, plan } = sound;
    let mut points = [0i32; MOST_NUMBERS];
    match by_tolerance(shape, tolerance, most, controls, &mut points) {
        Err(refusal) => put_refusal(refusal, text),
        Ok(steps) => list_chosen(
            text,
            shape.basis,
            tolerance,
            plan.spans,
            &points,
            steps.points,
            steps.cuts,
        ),
    }
}
