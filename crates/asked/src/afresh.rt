// The spans that an edit works afresh.
ghost use Rattle.std.specs.Prelude.{◌≡◌, true, ◌≤◌};
ghost use Rattle.curve.specs.Span.{is_loop};
ghost use Rattle.shape.specs.Shape.{least_records, most_records};
ghost use Rattle.asked.specs.Edits.{clipped, count_round, first_fresh, past_fresh, run_of, run_round};

use crate::{Edit, Run};
use curve::records::{is_loop, round_end};
use shape::{Plan, last_using, spans_of};

// An edit at its place, with the plan of the new shape, from which its run is read.
#[derive(Clone, Copy)]
pub struct Placed {
    pub edit: Edit,
    pub place: usize,
    pub plan: Plan,
    ghost place_few: { place ≤ most_records },
}

impl Placed {
    // The first span of an open outline that is worked afresh.
    fn first_fresh(self) -> usize
        ensures { result ≡ first_fresh self.edit self.plan self.place }
    {
        match self.edit {
            Edit::Move(..) => spans_of(self.plan.basis, self.place),
            Edit::Insert(..) | Edit::Remove => self.place.saturating_sub(3),
        }
    }

    // One past the last span of an open outline that is worked afresh. From there on the spans are carried, in a loop too.
    pub fn past_fresh(self) -> usize
        ensures { result ≡ past_fresh self.edit self.plan self.place }
    {
        let past = match self.edit {
            Edit::Move(..) => last_using(self.plan.basis, self.place) + 1,
            Edit::Insert(..) => self.place + 1,
            Edit::Remove => self.place,
        };
        past.min(self.plan.spans)
    }

    // How many spans of a loop are worked afresh.
    fn count_round(self) -> usize
        ensures { result ≡ count_round self.edit }
    {
        match self.edit {
            Edit::Move(..) | Edit::Insert(..) => 4,
            Edit::Remove => 3,
        }
    }

    // The run of a loop, counted round its spans from three before the place on.
    fn run_round(self) -> Run
        requires { (3 ≤ self.plan.spans) × (self.plan.spans ≤ most_records) }
        ensures { result ≡ run_round self.edit self.plan.spans self.place }
    {
        let spans = self.plan.spans;
        Run {
            first: round_end(spans, self.place + spans - 3),
            count: self.count_round(),
        }
    }

    // The spans that the edit works afresh.
    pub fn run(self) -> Run
        requires { (self.plan.spans ≤ most_records) × (is_loop self.plan.basis ≡ true → least_records ≤ self.plan.spans) }
        ensures { result ≡ run_of self.edit self.plan self.place }
    {
        if is_loop(self.plan.basis) {
            return self.run_round();
        }
        Run::between(self.first_fresh(), self.past_fresh())
    }
}

impl Run {
    // The run from one span up to, and not with, another; where there is none, both numbers are 0.
    fn between(first: usize, past: usize) -> Run
        ensures { result ≡ clipped first past }
    {
        if past <= first {
            return Run::default();
        }
        Run {
            first,
            count: past - first,
        }
    }
}
