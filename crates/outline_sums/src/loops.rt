// Sums of closed loops, and of edits that go round their end.
use crate::Text;
use crate::edits::put_edit;
use crate::outlines::{Basis, Outline, put_outline};
use edit::Edit;
use std::fmt;
use std::fmt::Write;

// The records of the smallest loop.
const SMALLEST: [i32; 4] = [0, 12, 24, 12];

// The smallest loop; edits of a larger one; and what is refused: a loop of one record less, and a removal from the smallest.
pub(crate) fn put_loops(text: &mut Text) -> fmt::Result {
    put_outline(text, Outline::new(Basis::Loop, 1, &SMALLEST))?;
    put_edits(text)?;
    put_outline(text, Outline::new(Basis::Loop, 1, &[0, 6, 12]))?;
    let smallest = Outline::new(Basis::Loop, 0, &SMALLEST);
    write!(text, "{smallest} ")?;
    put_edit(text, smallest, 0, Edit::Remove)
}

// A larger loop, and its edits: a new first record, the last one taken out, and the first one moved.
fn put_edits(text: &mut Text) -> fmt::Result {
    let before = Outline::new(Basis::Loop, 0, &[0, 6, 12, 18, 24, 12]);
    put_outline(text, before)?;
    put_edit(text, before, 0, Edit::Insert(30, 0))?;
    put_edit(text, before, 5, Edit::Remove)?;
    put_edit(text, before, 0, Edit::Move(6, 0))
}
