// The lines that a trial writes, each built in a text and sent whole.
use crate::bench::{LONGEST_POINTS, LONGEST_PREVIEW};
use console::{Text, tell, write_output};
use drawing::State;
use edit::Change;
use shape::{Refusal, Shape};
use std::fmt::Write;
use std::{fmt, io};

// Room for a line of a few numbers, for one of all numbers of the longest list, and for one of the longest preview: a number has a sign and up to 10 digits, a pattern up to 20 digits, and each has one character after it.
const SHORT: usize = 160;

const NUMBERS: usize = 12 * LONGEST_POINTS;

const PATTERNS: usize = 21 * LONGEST_PREVIEW;

// Ends the line, and writes it.
fn send<const N: usize>(rt: &(impl Print + Eprint), line: &mut Text<N>) -> io::Result<()> {
    line.end_line();
    write_output(rt, line.written())
}

// The line of an answer.
pub(crate) fn say(rt: &(impl Print + Eprint), answer: impl fmt::Display + Drop) -> io::Result<()> {
    let mut line = Text::<SHORT>::new();
    let _ = write!(line, "{answer}");
    send(rt, &mut line)
}

// The line of a refusal.
pub(crate) fn say_refusal(rt: &(impl Print + Eprint), refusal: Refusal) -> io::Result<()> {
    let Refusal { number, place } = refusal;
    say(rt, format_args!("refused {number} {place}"))
}

// The line of a list. It and the line of doubles are called and not inlined: a function pays at entry for the size of its locals, page by page, and these texts have a hundred and fifty.
#[inline(never)]
pub(crate) fn say_numbers(rt: &(impl Print + Eprint), numbers: &[i32]) -> io::Result<()> {
    let mut line = Text::<NUMBERS>::new();
    line.add_numbers(numbers);
    send(rt, &mut line)
}

// The line of a file that was read: the shape that it gives.
pub(crate) fn say_shape(rt: &(impl Print + Eprint), shape: Shape) -> io::Result<()> {
    let Shape {
        basis,
        depth,
        count,
        parameter,
    } = shape;
    say(rt, format_args!("read {basis} {depth} {count} {parameter}"))
}

// The line of an edit: the shape that it leaves, but for its parameter, the spans worked afresh, how many coordinates are exact, and the parameter.
pub(crate) fn say_change(rt: &(impl Print + Eprint), change: Change) -> io::Result<()> {
    let Change {
        shape,
        first,
        fresh,
        exact,
    } = change;
    let Shape {
        basis,
        depth,
        count,
        parameter,
    } = shape;
    say(
        rt,
        format_args!("edited {basis} {depth} {count} {first} {fresh} {exact} {parameter}"),
    )
}

// The line of a drawing state: its count, start and current, and 1 where it is closed.
pub(crate) fn say_state(rt: &(impl Print + Eprint), state: State) -> io::Result<()> {
    let State {
        count,
        start,
        current,
        closed,
    } = state;
    say(
        rt,
        format_args!(
            "state {count} {} {} {} {} {}",
            start.x,
            start.y,
            current.x,
            current.y,
            u8::from(closed)
        ),
    )
}

// The line of a list of doubles.
#[inline(never)]
pub(crate) fn say_patterns(rt: &(impl Print + Eprint), doubles: &[f64]) -> io::Result<()> {
    let mut line = Text::<PATTERNS>::new();
    line.add_patterns(doubles);
    send(rt, &mut line)
}

// The line of a bad record, which is told as well.
pub(crate) fn say_bad(rt: &(impl Print + Eprint), number: usize) {
    let mut line = Text::<SHORT>::new();
    let _ = write!(line, "bad record {number}");
    if send(rt, &mut line).is_ok() {
        tell(rt, line.written());
    }
}
