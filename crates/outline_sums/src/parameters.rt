// Sums of cardinal curves with a parameter.
use crate::Text;
use crate::outlines::{Basis, Outline, put_points};
use curve::{LIMIT, MOST_PARAMETER};
use std::fmt;
use std::fmt::Write;

// P5 at parameters 0, 16, 64 and one more; the farthest points, either way; and a basis whose parameter is not looked at.
pub(crate) fn put_parameters(text: &mut Text) -> fmt::Result {
    for parameter in [0, 16, MOST_PARAMETER, MOST_PARAMETER + 1] {
        put_with(text, Basis::Cardinal, parameter, &[0, 1000, 1000, 0])?;
    }
    for x in [LIMIT, -LIMIT] {
        put_with(text, Basis::Cardinal, MOST_PARAMETER, &[-x, x, x, -x])?;
    }
    put_with(text, Basis::BSpline, MOST_PARAMETER + 1, &[0, 6, 12, 18])
}

// The line of an outline at depth 1 with a parameter.
fn put_with(text: &mut Text, basis: Basis, parameter: usize, x: &[i32]) -> fmt::Result {
    let outline = Outline {
        parameter,
        ..Outline::new(basis, 1, x)
    };
    write!(text, "{outline} depth 1 parameter {parameter}:")?;
    put_points(text, outline)
}
