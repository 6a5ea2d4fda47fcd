// The calls of the library, on the lent lists, and what they answer.
use crate::bench::{Bench, lent, lent_mut};
use crate::text::{say, say_change, say_numbers, say_patterns, say_refusal, say_shape, say_state};
use crate::trial::{Call, List, Way};
use drawing::Step;
use edit::{Edit, insert_record, move_record, remove_record};
use list_output::write_file;
use outline::{Figures, by_differences, by_halving, by_weights};
use preview::preview;
use record_file::read;
use std::io;
use tolerance::{Steps, by_tolerance};

impl Bench {
    // A call, and the line of its answer.
    pub(crate) fn call(&mut self, rt: &(impl Print + Eprint), call: Call) -> io::Result<()> {
        match call {
            Call::Draw(way) => self.draw(rt, way),
            Call::Cut(tolerance, most) => self.cut(rt, tolerance, most),
            Call::Edit(place, edit) => self.edit(rt, place, edit),
            Call::View(span) => self.view(rt, span),
            Call::Preview => self.draw_preview(rt),
            Call::Step(step) => self.step(rt, step),
            Call::ReadFile => self.read_file(rt),
            Call::ListFile => self.list_file(rt),
        }
    }

    // The outline, in one of the three ways. The record says which, so it is known only here.
    fn draw(&mut self, rt: &(impl Print + Eprint), way: Way) -> io::Result<()> {
        let controls = lent(&self.controls, self.lengths.controls);
        let points = lent_mut(&mut self.points, self.lengths.points);
        let drawn = match way {
            Way::Weights => by_weights(self.shape, controls, points),
            Way::Halving => by_halving(self.shape, controls, points),
            Way::Differences => by_differences(self.shape, controls, points),
        };
        match drawn {
            Ok(Figures { points, exact }) => say(rt, format_args!("drawn {points} {exact}")),
            Err(refusal) => say_refusal(rt, refusal),
        }
    }

    // The outline within a tolerance, by at most so many cuts.
    fn cut(&mut self, rt: &(impl Print + Eprint), tolerance: usize, most: usize) -> io::Result<()> {
        let controls = lent(&self.controls, self.lengths.controls);
        let points = lent_mut(&mut self.points, self.lengths.points);
        match by_tolerance(self.shape, tolerance, most, controls, points) {
            Ok(
                Steps {
                    points,
                    cuts,
                    exact,
                },
            ) => say(rt, format_args!("cut {points} {cuts} {exact}")),
            Err(refusal) => say_refusal(rt, refusal),
        }
    }

    // An edit, and the shape that it leaves.
    fn edit(&mut self, rt: &(impl Print + Eprint), place: usize, edit: Edit) -> io::Result<()> {
        let controls = lent_mut(&mut self.controls, self.lengths.controls);
        let points = lent_mut(&mut self.points, self.lengths.points);
        let edited = match edit {
            Edit::Move(x, y) => move_record(self.shape, place, x, y, controls, points),
            Edit::Insert(x, y) => insert_record(self.shape, place, x, y, controls, points),
            Edit::Remove => remove_record(self.shape, place, controls, points),
        };
        match edited {
            Ok(change) => {
                self.shape = change.shape;
                say_change(rt, change)
            }
            Err(refusal) => say_refusal(rt, refusal),
        }
    }

    // The view of a span: its length, and its numbers where there are any.
    fn view(&self, rt: &(impl Print + Eprint), span: usize) -> io::Result<()> {
        let part = outline::view(self.shape, span, lent(&self.points, self.lengths.points));
        say(rt, format_args!("view {}", part.len()))?;
        if part.is_empty() {
            return Ok(());
        }
        say_numbers(rt, part)
    }

    fn draw_preview(&mut self, rt: &(impl Print + Eprint)) -> io::Result<()> {
        match preview(
            self.shape,
            lent(&self.controls, self.lengths.controls),
            lent_mut(&mut self.preview, self.lengths.preview),
        ) {
            Ok(count) => say(rt, format_args!("previewed {count}")),
            Err(refusal) => say_refusal(rt, refusal),
        }
    }

    // A step of the drawing, and the state that it leaves.
    fn step(&mut self, rt: &(impl Print + Eprint), step: Step) -> io::Result<()> {
        match self
            .state
            .step(step, lent_mut(&mut self.controls, self.lengths.controls))
        {
            Ok(state) => {
                self.state = state;
                say_state(rt, state)
            }
            Err(refusal) => say_refusal(rt, refusal),
        }
    }

    // The file read into the controls, and the shape that it gives.
    fn read_file(&mut self, rt: &(impl Print + Eprint)) -> io::Result<()> {
        match read(
            self.file.as_slice(),
            lent_mut(&mut self.controls, self.lengths.controls),
        ) {
            Ok(shape) => {
                self.shape = shape;
                say_shape(rt, shape)
            }
            Err(refusal) => say_refusal(rt, refusal),
        }
    }

    // The file listed as outline-list does.
    fn list_file(&self, rt: &(impl Print + Eprint)) -> io::Result<()> {
        write_file(rt, self.file.as_slice()).written?;
        Ok(())
    }

    // A list in one line.
    pub(crate) fn show(&self, rt: &(impl Print + Eprint), list: List) -> io::Result<()> {
        match list {
            List::Controls => say_numbers(rt, lent(&self.controls, self.lengths.controls)),
            List::Points => say_numbers(rt, lent(&self.points, self.lengths.points)),
            List::Preview => say_patterns(rt, lent(&self.preview, self.lengths.preview)),
        }
    }
}
