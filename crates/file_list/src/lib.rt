// The listing of a record file: what outline-list writes for it, part by part, and what outline-cut writes. The public calls have no `requires`: they are total on any bytes, any reading
// and any controls.
#![tactic(auto)]

ghost use Rattle.std.specs.Prelude.{◌≡◌};
ghost use Rattle.whole.specs.Outcome.{outcome};
ghost use Rattle.listing.specs.Written.{written};
ghost use Rattle.file_list.specs.Files.{count_of, refused_text};

use listing::list_refusal;
use record_file::MOST_BYTES;
use shape::{MOST_RECORDS, Refusal};

mod cut;
mod parts;

pub use cut::{MOST_TEXT, cut_file};
pub use parts::{MOST_PART, list_part, parts_of};

// What of a file is read: one byte more than the longest has, so that a longer one is seen.
pub const MOST_READ: usize = MOST_BYTES + 1;

// The most spans: in a loop each record starts one.
const MOST_SPANS: usize = MOST_RECORDS;

// The line of a point has at most 30 characters.
const LINE: usize = 30;

// How many characters were put at the start of a text: 0 where they do not fit.
fn count_of(put: Option<usize>) -> usize
    ensures { result ≡ count_of put }
{
    put.unwrap_or(0)
}

// The line of a refusal.
fn put_refusal(refusal: Refusal, text: &mut [u8]) -> Option<usize>
    ensures { outcome result text.new ≡ written text.old 0 (refused_text refusal) }
{
    list_refusal(text, refusal.number, refusal.place)
}
