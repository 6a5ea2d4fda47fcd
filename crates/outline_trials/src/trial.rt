// What a record of a trials file asks for: it sets the bench up, calls the library or shows a list.
use drawing::{State, Step};
use edit::Edit;
use shape::Shape;

#[derive(Clone, Copy)]
pub(crate) enum Trial<'a> {
    Set(Setting<'a>),
    Call(Call),
    Show(List),
}

// What becomes something else on the bench: the lists that are lent, the shape, a number of the controls or of the points, the file, which becomes empty or gets more bytes, and the drawing state.
#[derive(Clone, Copy)]
pub(crate) enum Setting<'a> {
    Lists(Lengths, i32),
    Shape(Shape),
    Control(usize, i32),
    Point(usize, i32),
    EmptyFile,
    MoreFile(&'a [u8]),
    State(State),
}

// How many numbers of each list are lent.
#[derive(Clone, Copy)]
pub(crate) struct Lengths {
    pub controls: usize,
    pub points: usize,
    pub preview: usize,
}

// A call of the library: the outline drawn in one of three ways, or within a tolerance by at most so many cuts; a record edited; a span viewed; the preview; a step of a drawing; the file read, or listed.
#[derive(Clone, Copy)]
pub(crate) enum Call {
    Draw(Way),
    Cut(usize, usize),
    Edit(usize, Edit),
    View(usize),
    Preview,
    Step(Step),
    ReadFile,
    ListFile,
}

#[derive(Clone, Copy)]
pub(crate) enum Way {
    Weights,
    Halving,
    Differences,
}

#[derive(Clone, Copy)]
pub(crate) enum List {
    Controls,
    Points,
    Preview,
}
