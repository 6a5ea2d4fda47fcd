// The line of an outline's sum: what is drawn, and its points or its refusal. A sum is over one axis: of a record or a point its x is told, and every y is 0.
use crate::Text;
use curve::DEEPEST;
use outline::{Figures, by_weights};
use shape::{MOST_RECORDS, Refusal, Shape};
use std::fmt;
use std::fmt::Write;

// The bases, numbered as in a shape. `curve::Basis` is what comes of a shape that was checked, and has no numbers.
#[derive(Clone, Copy)]
pub(crate) enum Basis {
    Bezier = 1,
    BSpline,
    Cardinal,
    Hermite,
    Loop,
}

impl fmt::Display for Basis {
    fn fmt<W: fmt::Write>(&self, f: &mut fmt::Formatter<W>) -> fmt::Result {
        f.write_str(match self {
            Basis::Bezier => "Bezier",
            Basis::BSpline => "B-spline",
            Basis::Cardinal => "cardinal",
            Basis::Hermite => "Hermite",
            Basis::Loop => "loop",
        })
    }
}

// Room for the most records.
const CONTROLS: usize = 2 * MOST_RECORDS;

// Room for the points of one span at the deepest, which are more than the others draw.
pub(crate) const POINTS: usize = 2 * ((1 << DEEPEST) + 1);

// What is drawn: the basis, the depth, the parameter, and the x of each record.
#[derive(Clone, Copy)]
pub(crate) struct Outline<'a> {
    pub basis: Basis,
    pub depth: usize,
    pub parameter: usize,
    pub x: &'a [i32],
}

impl Outline<'_> {
    // One without a parameter.
    pub(crate) fn new(basis: Basis, depth: usize, x: &[i32]) -> Outline<'_> {
        Outline {
            basis,
            depth,
            parameter: 0,
            x,
        }
    }

    pub(crate) fn shape(self) -> Shape {
        Shape {
            basis: self.basis as usize,
            depth: self.depth,
            count: self.x.len(),
            parameter: self.parameter,
        }
    }

    // The records, x then y, in a list with room for more.
    pub(crate) fn controls(self) -> [i32; CONTROLS] {
        let mut controls = [0i32; CONTROLS];
        let (records, _) = controls.as_chunks_mut::<2>();
        for (record, x) in records.iter_mut().zip(self.x) {
            *record = [*x, 0];
        }
        controls
    }

    // Draws its points in a list.
    pub(crate) fn draw(self, points: &mut [i32]) -> Result<Figures, Refusal> {
        by_weights(self.shape(), &self.controls(), points)
    }

    // Its points, as far as they are drawn.
    pub(crate) fn points(self) -> [i32; POINTS] {
        let mut points = [0i32; POINTS];
        let _ = self.draw(&mut points);
        points
    }
}

// The basis and the records' x.
impl fmt::Display for Outline<'_> {
    fn fmt<W: fmt::Write>(&self, f: &mut fmt::Formatter<W>) -> fmt::Result {
        let basis = self.basis;
        write!(f, "{basis}")?;
        for x in self.x {
            write!(f, " {x}")?;
        }
        Ok(())
    }
}

// The x of the first `count` points of a list.
#[derive(Clone, Copy)]
pub(crate) struct Abscissas<'a> {
    pub points: &'a [i32],
    pub count: usize,
}

impl fmt::Display for Abscissas<'_> {
    fn fmt<W: fmt::Write>(&self, f: &mut fmt::Formatter<W>) -> fmt::Result {
        let (points, _) = self.points.as_chunks::<2>();
        for [x, _] in points.iter().take(self.count) {
            write!(f, " {x}")?;
        }
        Ok(())
    }
}

// P1 to P8, two for each open basis.
pub(crate) fn put_bases(text: &mut Text) -> fmt::Result {
    let outlines = [
        Outline::new(Basis::Bezier, 1, &[0, 0, 0, 4]),
        Outline::new(Basis::Bezier, 1, &[0, 0, 0, -4]),
        Outline::new(Basis::BSpline, 1, &[0, 6, 12, 18]),
        Outline::new(Basis::BSpline, 1, &[0, 1, 0, 0]),
        Outline::new(Basis::Cardinal, 1, &[0, 1000, 1000, 0]),
        Outline::new(
            Basis::Cardinal,
            1,
            &[-4_000_000, 4_000_000, 4_000_000, -4_000_000],
        ),
        Outline::new(Basis::Hermite, 2, &[0, 0, 1000, 0]),
        Outline::new(Basis::Hermite, 1, &[0, 8, 0, -8]),
    ];
    for (i, outline) in outlines.iter().enumerate() {
        write!(text, "P{} ", i + 1)?;
        put_outline(text, *outline)?;
    }
    Ok(())
}

// The line of an outline: the basis, the records' x and the depth, and what is drawn.
pub(crate) fn put_outline(text: &mut Text, outline: Outline) -> fmt::Result {
    let depth = outline.depth;
    write!(text, "{outline} depth {depth}:")?;
    put_points(text, outline)
}

// What is drawn: the x of all points, and how many coordinates are exact; or the refusal.
pub(crate) fn put_points(text: &mut Text, outline: Outline) -> fmt::Result {
    let mut points = [0i32; POINTS];
    match outline.draw(&mut points) {
        Ok(figures) => {
            let points = Abscissas {
                points: &points,
                count: figures.points,
            };
            let exact = figures.exact;
            write!(text, "{points} exact {exact}")?;
        }
        Err(refusal) => put_refusal(text, refusal)?,
    }
    writeln!(text)
}

// A refusal: its number and its place.
pub(crate) fn put_refusal(text: &mut Text, refusal: Refusal) -> fmt::Result {
    let Refusal { number, place } = refusal;
    write!(text, " refused {number} {place}")
}
