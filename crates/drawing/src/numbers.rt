// The numbers of a step: each is micrometres, or refused with its index.
ghost use Rattle.std.specs.Prelude.{◌≡◌, ◌≤◌};
ghost use Rattle.drawing.specs.Inner.{judge_number, judge_control};

use crate::Control;
use doubles::{Unmeasured, micrometres};
use shape::{Reason, Refusal};

// A point as a step gives it: two numbers, in millimetres.
#[derive(Clone, Copy)]
pub(crate) struct Point {
    pub(crate) x: f64,
    pub(crate) y: f64,
}

impl Point {
    // The control at the point, or the first of its numbers that is none: x has an index among the step's numbers, and y the next.
    #[tactic(auto, unfolding(crate::specs::Inner::judge_number, crate::specs::Inner::judge_control, shape::specs::Refusals::judge))]
    pub(crate) fn control(self, place: usize) -> Result<Control, Refusal>
        requires { place ≤ 4 }
        ensures { result ≡ judge_control place self.x self.y }
    {
        let x = number(self.x, place)?;
        let y = number(self.y, place + 1)?;
        Ok(Control { x, y })
    }
}

// One number of a step, at its index: micrometres, or refused with the index.
#[tactic(auto, unfolding(crate::specs::Inner::judge_number, shape::specs::Refusals::judge))]
fn number(mm: f64, place: usize) -> Result<i32, Refusal>
    ensures { result ≡ judge_number place mm }
{
    // No `From` turns the one into the other: both are types of other crates.
    match micrometres(mm) {
        Err(Unmeasured::NotFinite) => Err(Reason::NotFinite.at(place)),
        Err(Unmeasured::Outside) => Err(Reason::TooFar.at(place)),
        Ok(n) => Ok(n),
    }
}
