// Carrying points by one span.
ghost use Rattle.std.specs.Prelude.{◌≡◌, ◌≤◌, length};
ghost use Rattle.curve.specs.Ways.{deepest};
ghost use Rattle.shape.specs.Shape.{most_records};
ghost use Rattle.spans.specs.Numbers.{per_span};
ghost use Rattle.edit.specs.Inner.{Carriable, carried};
ghost use Rattle.asked.specs.Edits.{past_fresh};

use asked::Edit;
use asked::afresh::Placed;

// The numbers of the spans past the fresh ones become those of the span before (insert) or after (remove); a move carries nothing.
pub(crate) fn carry(placed: Placed, points: &mut [i32])
    requires small { (placed.plan.depth ≤ deepest) × (placed.plan.spans ≤ most_records) }
    requires carriable { Carriable placed.edit (past_fresh placed.edit placed.plan placed.place) placed.plan.spans (per_span placed.plan.depth) (length points.old) }
    ensures { points.new ≡ carried placed.edit (past_fresh placed.edit placed.plan placed.place) placed.plan.spans (per_span placed.plan.depth) points.old }
{
    let past = placed.past_fresh();
    let spans = placed.plan.spans;
    if spans <= past {
        return;
    }
    let width = 2 * placed.plan.steps();
    let from = past * width;
    let to = spans * width + 2;
    match placed.edit {
        Edit::Move(..) => {}
        Edit::Insert(..) => points.copy_within(from - width..to - width, from),
        Edit::Remove => points.copy_within(from + width..to + width, from),
    }
}
