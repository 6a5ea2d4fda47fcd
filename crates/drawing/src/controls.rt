// Controls written as records of the lent list.
ghost use Rattle.std.specs.Prelude.{◌≡◌, ◌+◌, ◌*◌, ◌≤◌, length};
ghost use Rattle.std.proofs.lemmas.List.Edits.{sets};
ghost use Rattle.drawing.specs.Drawing.{flat};

use crate::Control;

// Records, one after the other, from a number of the list on. The list goes whole, as the contract speaks of it.
pub(crate) fn put(controls: &mut [i32], at: usize, records: &[Control])
    requires { at + 2 * length records.now ≤ length controls.old }
    ensures { controls.new ≡ sets controls.old at (flat records.now) }
{
    for (i, record) in records.iter().enumerate() {
        controls[at + 2 * i] = record.x;
        controls[at + 2 * i + 1] = record.y;
    }
}
