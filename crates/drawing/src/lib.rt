// A drawing, step by step (document 01, "Preview and drawing"): the drawing state goes in by value, the next state comes back, and the records that a step adds
// are written to the lent controls. No public call has a `requires`: any state, step and list can be passed.
#![tactic(auto)]

mod controls;
mod numbers;

ghost use Rattle.std.specs.Prelude.{◌≡◌};
ghost use Rattle.whole.specs.Outcome.{outcome};
ghost use Rattle.drawing.specs.declared.Step.TheVariants.{Move, Line, Cubic, Close};
ghost use Rattle.drawing.specs.Drawing.{empty, opens, line};
ghost use Rattle.drawing.specs.Reading.{miscounted, astray, out_of_turn, stepped};
ghost use Rattle.drawing.specs.Inner.{judge_state, extends, goes_on};

use controls::put;
use numbers::Point;
use shape::{MOST_RECORDS, Reason, Refusal, first_outside};

// A control: a record of the lent list, in micrometres.
#[derive(Clone, Copy, Debug, PartialEq, Eq)]
pub struct Control {
    pub x: i32,
    pub y: i32,
}

// The drawing state: how many records there are, the first and the last of them, and whether the drawing is closed. Before the first record those two are 0, 0, and no `Option`: the state that a caller keeps is the one that the theorems of drawings speak of.
#[derive(Clone, Copy, Debug, PartialEq, Eq)]
pub struct State {
    pub count: usize,
    pub start: Control,
    pub current: Control,
    pub closed: bool,
}

// The four kinds of step, with their numbers in millimetres.
#[derive(Clone, Copy, Debug, PartialEq)]
pub enum Step {
    Move(f64, f64),
    Line(f64, f64),
    Cubic(f64, f64, f64, f64, f64, f64),
    Close,
}

// The records of a Line from A to B: A, B, B.
fn line(a: Control, b: Control) -> [Control; 3]
    ensures { result ≡ line a b }
{
    [a, b, b]
}

impl Step {
    // Move alone opens a drawing.
    fn opens(self) -> bool
        ensures { result ≡ opens self }
    {
        matches!(self, Step::Move(_, _))
    }
}

impl State {
    // The state before the first step.
    pub fn new() -> State
        ensures { result ≡ empty }
    {
        State {
            count: 0,
            start: Control { x: 0, y: 0 },
            current: Control { x: 0, y: 0 },
            closed: false,
        }
    }

    // Row 3: the count is not 0, 1, 4, .., 64, or 0 while closed.
    #[tactic(auto, using(std::proofs::lemmas::Bool::Decides::nat_tests), unfolding(crate::specs::Reading::miscounted, crate::specs::Reading::reached))]
    fn is_miscounted(self) -> bool
        ensures { result ≡ miscounted self }
    {
        if self.count == 0 {
            self.closed
        } else {
            MOST_RECORDS < self.count || self.count % 3 != 1
        }
    }

    // Row 8: start or current outside limits, where there are any. They are looked at as a list of two records.
    fn is_astray(self) -> bool
        ensures { result ≡ astray self }
    {
        let held = [self.start.x, self.start.y, self.current.x, self.current.y];
        self.count != 0 && first_outside(&held, 2) < 2
    }

    // Row 12: the first step is not Move, Move comes later, or the drawing is closed.
    #[tactic(auto, using(std::proofs::lemmas::Bool::Decides::nat_tests), unfolding(crate::specs::Reading::out_of_turn))]
    fn is_out_of_turn(self, opening: bool) -> bool
        ensures { result ≡ out_of_turn self opening }
    {
        self.closed || opening != (self.count == 0)
    }

    // The checks of the state in the paper's order: 3, 8, 12.
    #[tactic(auto, unfolding(crate::specs::Inner::judge_state, shape::specs::Refusals::judge))]
    fn check(self, opening: bool) -> Result<(), Refusal>
        ensures { result ≡ judge_state self opening }
    {
        if self.is_miscounted() {
            return Err(Reason::WrongCount.into());
        }
        if self.is_astray() {
            return Err(Reason::OutsideLimits.into());
        }
        if self.is_out_of_turn(opening) {
            return Err(Reason::OutOfTurn.into());
        }
        Ok(())
    }

    // The records that a step adds: the checks 6 and 7, the writing, and the next state. Of any state, since a count that is too large stays so.
    #[tactic(auto, unfolding(crate::specs::Inner::extends, shape::specs::Refusals::judge))]
    fn add(
        self,
        records: &[Control],
        start: Control,
        closed: bool,
        controls: &mut [i32],
    ) -> Result<State, Refusal>
        ensures { outcome result controls.new ≡ extends self records.now start closed controls.old }
    {
        let count = self.count.saturating_add(records.len());
        if MOST_RECORDS < count {
            return Err(Reason::CountAtItsLimit.into());
        }
        if controls.len() < 2 * count {
            return Err(Reason::ShortControls.into());
        }
        put(controls, 2 * self.count, records);
        Ok(State {
            count,
            start,
            current: records.last().copied().unwrap_or(self.current),
            closed,
        })
    }

    // Move gives the first control, and is start and current from then on.
    #[tactic(auto, unfolding(crate::specs::Inner::goes_on, crate::specs::Inner::extends, crate::specs::Inner::judge_control, crate::specs::Drawing::added, shape::specs::Refusals::judge))]
    fn move_to(self, first: Point, controls: &mut [i32]) -> Result<State, Refusal>
        ensures { outcome result controls.new ≡ goes_on self (Move first.x first.y) controls.old }
    {
        let first = first.control(0)?;
        self.add(&[first], first, self.closed, controls)
    }

    // Line adds a line from current to its end.
    #[tactic(auto, unfolding(crate::specs::Inner::goes_on, crate::specs::Inner::extends, crate::specs::Inner::judge_control, crate::specs::Drawing::added, shape::specs::Refusals::judge))]
    fn line_to(self, end: Point, controls: &mut [i32]) -> Result<State, Refusal>
        ensures { outcome result controls.new ≡ goes_on self (Line end.x end.y) controls.old }
    {
        let end = end.control(0)?;
        self.add(&line(self.current, end), self.start, self.closed, controls)
    }

    // Cubic adds its three controls.
    #[tactic(auto, unfolding(crate::specs::Inner::goes_on, crate::specs::Inner::extends, crate::specs::Inner::judge_control, crate::specs::Drawing::added, shape::specs::Refusals::judge))]
    fn cubic_to(
        self,
        first: Point,
        second: Point,
        third: Point,
        controls: &mut [i32],
    ) -> Result<State, Refusal>
        ensures { outcome result controls.new ≡ goes_on self (Cubic first.x first.y second.x second.y third.x third.y) controls.old }
    {
        let first = first.control(0)?;
        let second = second.control(2)?;
        let third = third.control(4)?;
        self.add(&[first, second, third], self.start, self.closed, controls)
    }

    // Close adds a Line to the start, or nothing where current is there already, and closes.
    fn close(self, controls: &mut [i32]) -> Result<State, Refusal>
        ensures { outcome result controls.new ≡ goes_on self Close controls.old }
    {
        if self.current == self.start {
            self.add(&[], self.start, true, controls)
        } else {
            self.add(&line(self.current, self.start), self.start, true, controls)
        }
    }

    // One step of a drawing. It is refused by the first check that fails, 3, 8, 12, then its numbers in order, 6, 7, and then no lent number changes and no state.
    // Else the records that it adds are written from record number count on, every other lent number stays, and the next state comes back.
    #[tactic(auto, unfolding(crate::specs::Inner::goes_on, crate::specs::Reading::stepped, crate::specs::Inner::judge_state, shape::specs::Refusals::judge))]
    pub fn step(self, step: Step, controls: &mut [i32]) -> Result<State, Refusal>
        ensures { outcome result controls.new ≡ stepped self step controls.old }
    {
        self.check(step.opens())?;
        // One match over all four kinds: docs/FORMS.md names it as document 01's form.
        match step {
            Step::Move(x, y) => self.move_to(Point { x, y }, controls),
            Step::Line(x, y) => self.line_to(Point { x, y }, controls),
            Step::Cubic(a, b, c, d, e, f) => self.cubic_to(
                Point { x: a, y: b },
                Point { x: c, y: d },
                Point { x: e, y: f },
                controls,
            ),
            Step::Close => self.close(controls),
        }
    }
}
