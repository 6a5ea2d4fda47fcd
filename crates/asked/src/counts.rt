// What an edit may do, and the counts after it.
ghost use Rattle.std.specs.Prelude.{◌≡◌, ◌≤◌, ◌<◌};
ghost use Rattle.shape.specs.Shape.{most_records};
ghost use Rattle.asked.specs.Edits.{at_the_end, count_after, in_range, new_outside, offered, spans_after};

use crate::Edit;
use curve::bounds::is_beyond;
use curve::records::stride_of;
use curve::{Basis, LIMIT};
use shape::{LEAST_RECORDS, MOST_RECORDS};

// Whether a record is outside the limits.
fn is_outside(x: i32, y: i32) -> bool
    ensures { result ≡ new_outside (Edit.Insert x y) }
{
    is_beyond(x, LIMIT) || is_beyond(y, LIMIT)
}

impl Edit {
    // The control count after the edit.
    pub fn count_after(self, count: usize) -> usize
        requires { (0 < count) × (count ≤ most_records) }
        ensures { result ≡ count_after self count }
    {
        match self {
            Edit::Move(..) => count,
            Edit::Insert(..) => count + 1,
            Edit::Remove => count - 1,
        }
    }

    // The spans after the edit.
    pub fn spans_after(self, spans: usize) -> usize
        requires { (0 < spans) × (spans ≤ most_records) }
        ensures { result ≡ spans_after self spans }
    {
        match self {
            Edit::Move(..) => spans,
            Edit::Insert(..) => spans + 1,
            Edit::Remove => spans - 1,
        }
    }

    // Insert and remove exist for bases 2, 3 and 5: the splines, whose spans begin a record apart.
    pub fn is_offered(self, basis: Basis) -> bool
        ensures { result ≡ offered self basis }
    {
        matches!(self, Edit::Move(..)) || stride_of(basis) == 1
    }

    // A new record stands before one of the `count`, or last; the others are of one that is there.
    pub fn is_in_range(self, place: usize, count: usize) -> bool
        ensures { result ≡ in_range self place count }
    {
        match self {
            Edit::Insert(..) => place <= count,
            Edit::Move(..) | Edit::Remove => place < count,
        }
    }

    // Whether the count after the edit would be one that no outline has.
    pub fn is_at_the_end(self, count: usize) -> bool
        ensures { result ≡ at_the_end self count }
    {
        match self {
            Edit::Move(..) => false,
            Edit::Insert(..) => MOST_RECORDS <= count,
            Edit::Remove => count <= LEAST_RECORDS,
        }
    }

    // Whether the new record, where there is one, is outside the limits.
    pub fn is_new_outside(self) -> bool
        ensures { result ≡ new_outside self }
    {
        match self {
            // One arm for both gets no proof in this kit: a pattern of alternatives may not bind numbers with a sign.
            Edit::Move(x, y) => is_outside(x, y),
            Edit::Insert(x, y) => is_outside(x, y),
            Edit::Remove => false,
        }
    }
}
