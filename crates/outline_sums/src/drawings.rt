// The sums of a drawing's numbers: what a Move to x millimetres makes of x.
use crate::Text;
use crate::outlines::put_refusal;
use drawing::{State, Step};
use std::fmt;
use std::fmt::Write;

// P12.
pub(crate) fn put_millimetres(text: &mut Text) -> fmt::Result {
    for mm in [0.0625, -0.0625, 4000.00048828125, 4000.0009765625] {
        write!(text, "P12 {mm} mm:")?;
        put_move(text, mm)?;
    }
    Ok(())
}

// The x of the control that a Move to a number adds, or the refusal.
fn put_move(text: &mut Text, mm: f64) -> fmt::Result {
    let mut controls = [0i32; 2];
    match State::new().step(Step::Move(mm, 0.0), &mut controls) {
        Ok(_) => write!(text, " {}", controls[0])?,
        Err(refusal) => put_refusal(text, refusal)?,
    }
    writeln!(text)
}
