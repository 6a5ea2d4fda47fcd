// The bench that a trials file works on.
use crate::trial::{Lengths, Setting, Trial};
use arrayvec::ArrayVec;
use doubles::double_of;
use drawing::State;
use shape::Shape;
use std::io;

// The longest lists, and the longest file.
pub(crate) const LONGEST_CONTROLS: usize = 160;

pub(crate) const LONGEST_POINTS: usize = 33000;

pub(crate) const LONGEST_PREVIEW: usize = 11000;

const LONGEST_FILE: usize = 800;

// What a trials file works on: the shape, the drawing state, the lists and how much of each is lent, and the file. The lists are arrays with their lengths beside them, since an `ArrayVec` is filled number by
// number, which made a record that lends all of them five times as dear.
#[derive(Drop)]
pub(crate) struct Bench {
    pub shape: Shape,
    pub state: State,
    pub lengths: Lengths,
    pub controls: [i32; LONGEST_CONTROLS],
    pub points: [i32; LONGEST_POINTS],
    pub preview: [f64; LONGEST_PREVIEW],
    pub file: ArrayVec<u8, LONGEST_FILE>,
}

// Why a run stops: a record is bad, or the run has ended, with the input, or at a read or a write that failed.
#[derive(Clone, Copy, Debug, PartialEq, Eq)]
pub(crate) enum Stop {
    Bad,
    End,
}

impl From<io::Error> for Stop {
    fn from(_error: io::Error) -> Stop {
        Stop::End
    }
}

// The part of a list that is lent: so many of its numbers, or all where it has no more.
pub(crate) fn lent<T>(list: &[T], length: usize) -> &[T] {
    &list[..length.min(list.len())]
}

// The same to be written.
pub(crate) fn lent_mut<T>(list: &mut [T], length: usize) -> &mut [T] {
    let length = length.min(list.len());
    &mut list[..length]
}

impl Bench {
    // The bench before the first record.
    pub(crate) fn new() -> Bench {
        Bench {
            shape: Shape {
                basis: 0,
                depth: 0,
                count: 0,
                parameter: 0,
            },
            state: State::new(),
            lengths: Lengths {
                controls: 0,
                points: 0,
                preview: 0,
            },
            controls: [0; LONGEST_CONTROLS],
            points: [0; LONGEST_POINTS],
            preview: [0.0; LONGEST_PREVIEW],
            file: ArrayVec::new(),
        }
    }

    // One record's trial.
    pub(crate) fn play(&mut self, rt: &(impl Print + Eprint), trial: Trial) -> Result<(), Stop> {
        match trial {
            Trial::Set(setting) => self.set(setting),
            Trial::Call(call) => Ok(self.call(rt, call)?),
            Trial::Show(list) => Ok(self.show(rt, list)?),
        }
    }

    // Sets the bench up, and writes nothing.
    fn set(&mut self, setting: Setting) -> Result<(), Stop> {
        match setting {
            Setting::Lists(lengths, number) => self.lend(lengths, number),
            Setting::Shape(shape) => self.shape = shape,
            Setting::Control(at, number) => {
                *lent_mut(&mut self.controls, self.lengths.controls)
                    .get_mut(at)
                    .ok_or(Stop::Bad)? = number;
            }
            Setting::Point(at, number) => {
                *lent_mut(&mut self.points, self.lengths.points)
                    .get_mut(at)
                    .ok_or(Stop::Bad)? = number;
            }
            Setting::EmptyFile => self.file = ArrayVec::new(),
            Setting::MoreFile(bytes) => self
                .file
                .try_extend_from_slice(bytes)
                .map_err(|_| Stop::Bad)?,
            Setting::State(state) => self.state = state,
        }
        Ok(())
    }

    // Lends so much of each list, and every number in them becomes the same.
    fn lend(&mut self, lengths: Lengths, number: i32) {
        self.lengths = lengths;
        lent_mut(&mut self.controls, lengths.controls).fill(number);
        lent_mut(&mut self.points, lengths.points).fill(number);
        lent_mut(&mut self.preview, lengths.preview).fill(double_of(number));
    }
}
