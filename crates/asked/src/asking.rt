// The controls that an edit asks for, made in the lent list itself. Their count goes beside it, since the list that a caller lends has room for more, and what stands there is kept.
ghost use Rattle.std.specs.Prelude.{◌≡◌, ◌+◌, ◌*◌, ◌-◌, ◌≤◌, ◌<◌, length, set};
ghost use Rattle.asked.specs.Edits.{asked, count_after};
ghost use Rattle.asked.specs.Inner.{Askable};

use crate::Edit;

// Record `place` becomes (x, y).
fn put_record(controls: &mut [i32], place: usize, x: i32, y: i32)
    requires { 2 * place + 2 ≤ length controls.old }
    ensures { controls.new ≡ set (set controls.old (2 * place) x) (2 * place + 1) y }
{
    controls[2 * place] = x;
    controls[2 * place + 1] = y;
}

// A new record (x, y) stands before record `place` of `count`, and the rest one record on.
fn put_in(controls: &mut [i32], place: usize, count: usize, x: i32, y: i32)
    requires in_range { place ≤ count }
    requires room { 2 * count + 2 ≤ length controls.old }
    ensures { controls.new ≡ asked (Edit.Insert x y) place controls.old (count + 1) }
{
    controls.copy_within(2 * place..2 * count, 2 * place + 2);
    put_record(controls, place, x, y);
}

// Record `place` of `count` is taken out, and the rest one record back.
fn take_out(controls: &mut [i32], place: usize, count: usize)
    requires in_range { place < count }
    requires held { 2 * count ≤ length controls.old }
    ensures { controls.new ≡ asked Edit.Remove place controls.old (count - 1) }
{
    controls.copy_within(2 * place + 2..2 * count, 2 * place);
}

impl Edit {
    // The lent controls, of which there are `count`, become those that the edit asks for. Every number past the last of them keeps what it held.
    pub fn ask(self, place: usize, count: usize, controls: &mut [i32])
        requires { Askable self place count (length controls.old) }
        ensures { controls.new ≡ asked self place controls.old (count_after self count) }
    {
        match self {
            Edit::Move(x, y) => put_record(controls, place, x, y),
            Edit::Insert(x, y) => put_in(controls, place, count, x, y),
            Edit::Remove => take_out(controls, place, count),
        }
    }
}
