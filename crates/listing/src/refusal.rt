// The listing of a refusal: one line.
ghost use Rattle.std.specs.Prelude.{◌≡◌};
ghost use Rattle.whole.specs.Outcome.{outcome};
ghost use Rattle.listing.specs.Listing.{refusal_text};
ghost use Rattle.listing.specs.Written.{written};

use crate::line::{Line, add_number};
use crate::word::put_word;

// Writes the line `refused NUMBER PLACE` from the start of `text`, if it fits.
pub fn list_refusal(text: &mut [u8], number: usize, place: usize) -> Option<usize>
    ensures { outcome result text.new ≡ written text.old 0 (refusal_text number place) }
{
    put_word(text, 0, refusal_line(number, place).as_slice())
}

// The line itself.
fn refusal_line(number: usize, place: usize) -> Line
    ensures { result.items ≡ refusal_text number place }
{
    let mut line = Line::new();
    line.try_extend_from_slice(b"refused ").unwrap();
    add_number(&mut line, number, b' ');
    add_number(&mut line, place, b'\n');
    line
}
