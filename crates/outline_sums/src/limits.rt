// The limits of depth, count and coordinate: the greatest that is drawn, and sums that are refused.
use crate::Text;
use crate::outlines::{Basis, Outline, POINTS, put_outline, put_refusal};
use curve::{DEEPEST, LIMIT};
use outline::{Figures, by_weights};
use shape::{MOST_RECORDS, Refusal, Shape};
use std::fmt;
use std::fmt::Write;

// Depth 6, the deepest and one more; the most records, 5 and 2^32; the farthest coordinate and one more.
pub(crate) fn put_limits(text: &mut Text) -> fmt::Result {
    for depth in [6, DEEPEST, DEEPEST + 1] {
        put_deep(text, depth)?;
    }
    for count in [MOST_RECORDS, 5, 1 << 32] {
        put_zeros(text, count)?;
    }
    for x in [LIMIT, LIMIT + 1] {
        put_outline(text, Outline::new(Basis::Bezier, 1, &[0, 0, 0, x]))?;
    }
    Ok(())
}

// The line of an outline of P1's records.
fn put_deep(text: &mut Text, depth: usize) -> fmt::Result {
    let outline = Outline::new(Basis::Bezier, depth, &[0, 0, 0, 4]);
    let mut points = [0i32; POINTS];
    write!(text, "{outline} depth {depth}:")?;
    put_count(text, outline.draw(&mut points))
}

// The line of an outline whose records are all 0.
fn put_zeros(text: &mut Text, count: usize) -> fmt::Result {
    let shape = Shape {
        basis: Basis::Bezier as usize,
        depth: 1,
        count,
        parameter: 0,
    };
    let mut points = [0i32; POINTS];
    write!(text, "Bezier {count} records of 0 depth 1:")?;
    put_count(text, by_weights(shape, &[0i32; POINTS], &mut points))
}

// What is drawn: how many points, and how many coordinates are exact; or the refusal.
fn put_count(text: &mut Text, drawn: Result<Figures, Refusal>) -> fmt::Result {
    match drawn {
        Ok(Figures { points, exact }) => write!(text, " drawn {points} exact {exact}")?,
        Err(refusal) => put_refusal(text, refusal)?,
    }
    writeln!(text)
}
