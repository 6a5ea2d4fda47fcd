// Writes the worked sums that the outlines are held to, a line each: what is asked, and what the libraries answer.
#![tactic(auto)]

mod drawings;
mod edits;
mod limits;
mod loops;
mod outlines;
mod parameters;

use console::write_output;
use std::fmt;

// The most bytes that the sums have.
const LONGEST: usize = 4096;

// The text of the sums.
pub(crate) type Text = console::Text<LONGEST>;

// Text that does not fit would end what is written.
fn main(rt: HostRuntime) {
    let mut text = Text::new();
    let _ = put_sums(&mut text);
    let _ = write_output(&rt, text.written());
}

// Every sum: those of the bases, of edits and of a drawing's numbers, at the limits, with a parameter, and of loops.
fn put_sums(text: &mut Text) -> fmt::Result {
    outlines::put_bases(text)?;
    edits::put_edits(text)?;
    drawings::put_millimetres(text)?;
    limits::put_limits(text)?;
    parameters::put_parameters(text)?;
    loops::put_loops(text)
}
