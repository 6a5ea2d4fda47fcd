// The preview of document 01: the outline of basis 1 in doubles, by halving at midpoints. The one public call, `preview`, has no `requires`.
#![tactic(auto)]

ghost use Rattle.std.specs.Prelude.{Err, ◌≡◌, ◌+◌, ◌*◌, ◌^◌, ◌≤◌, ◌<◌, length};
ghost use Rattle.std.proofs.lemmas.List.Edits.{sets};
ghost use Rattle.whole.specs.Outcome.{outcome, refuses};
ghost use Rattle.curve.specs.Span.{first_record};
ghost use Rattle.curve.specs.Ways.{deepest};
ghost use Rattle.shape.specs.Refusals.{judge};
ghost use Rattle.shape.specs.Shape.{most_records, points_of};
ghost use Rattle.preview.specs.Halving.{control, halved, left_half, pieces, right_half, span_pieces, two};
ghost use Rattle.preview.specs.Preview.{later_rows, accepts, previewing};

use curve::Basis;
use curve::records::first_record;
use doubles::{Pair, double_of, midpoint_pair};
use shape::{Reason, Refusal, Shape, SoundShape, check_lists};

// The basis that the preview is offered for. Row 4 is about the shape's own number, so it is compared as one.
const BEZIER: usize = 1;

// Record r of the controls, as a point.
fn control_point(controls: &[i32], r: usize) -> Pair
    requires { 2 * r + 1 < length controls.now }
    ensures { result ≡ control controls.now r }
{
    Pair {
        x: double_of(controls[2 * r]),
        y: double_of(controls[2 * r + 1]),
    }
}

// Writes a point's two numbers.
fn put_point(points: &mut [f64], p: Pair)
    requires { length points.old ≡ 2 }
    ensures { points.new ≡ two p }
{
    points[0] = p.x;
    points[1] = p.y;
}

// A piece of a span: its four controls.
#[derive(Clone, Copy)]
struct Piece {
    a: Pair,
    b: Pair,
    c: Pair,
    d: Pair,
}

impl Piece {
    // The left half and the right one: the piece cut at its middle by midpoints.
    fn halves(self) -> (Piece, Piece)
        ensures { result ≡ (left_half self, right_half self) }
    {
        let m = midpoint_pair(self.a, self.b);
        let n = midpoint_pair(self.b, self.c);
        let o = midpoint_pair(self.c, self.d);
        let u = midpoint_pair(m, n);
        let v = midpoint_pair(n, o);
        let w = midpoint_pair(u, v);
        let left = Piece {
            a: self.a,
            b: m,
            c: u,
            d: w,
        };
        let right = Piece {
            a: w,
            b: v,
            c: o,
            d: self.d,
        };
        (left, right)
    }
}

// The first points of the 2^left pieces of a piece: it is cut until no cut is left.
fn fill_pieces(points: &mut [f64], left: usize, piece: Piece)
    requires deep { left ≤ deepest }
    requires own_part { length points.old ≡ 2 * 2 ^ left }
    ensures { points.new ≡ pieces left piece }
{
    if left == 0 {
        put_point(points, piece.a);
        return;
    }
    let (first, second) = piece.halves();
    let (front, back) = points.split_at_mut(1 << left);
    fill_pieces(front, left - 1, first);
    fill_pieces(back, left - 1, second);
}

// The points of a span but its end.
fn fill_span(controls: &[i32], span: usize, depth: usize, points: &mut [f64])
    requires deep { depth ≤ deepest }
    requires own_part { length points.old ≡ 2 * 2 ^ depth }
    requires few { span < most_records }
    requires held { 2 * first_record Basis.Bezier span + 8 ≤ length controls.now }
    ensures { points.new ≡ span_pieces controls.now depth span }
{
    let first = first_record(Basis::Bezier, span);
    let piece = Piece {
        a: control_point(controls, first),
        b: control_point(controls, first + 1),
        c: control_point(controls, first + 2),
        d: control_point(controls, first + 3),
    };
    fill_pieces(points, depth, piece);
}

// All points of a plan's spans: span by span, and the end of the last, where a next one would start.
fn fill_spans(controls: &[i32], spans: usize, depth: usize, points: &mut [f64])
    requires depth_le_deepest { (depth ≤ deepest) × (spans < most_records) }
    requires spans_in_bounds { (2 * first_record Basis.Bezier spans + 2 ≤ length controls.now) × (2 * points_of depth spans ≤ length points.old) }
    ensures { points.new ≡ sets points.old 0 (halved controls.now depth 0 spans) }
{
    let width: usize = 2 << depth;
    for s in 0..spans {
        let at = s * width;
        fill_span(controls, s, depth, &mut points[at..at + width]);
    }
    let at = spans * width;
    let end = control_point(controls, first_record(Basis::Bezier, spans));
    put_point(&mut points[at..at + 2], end);
}

// Rows 4, 7, 8, 9 for a shape that was found sound, and then the points.
fn preview_plan(sound: SoundShape, controls: &[i32], points: &mut [f64]) -> Result<usize, Refusal>
    ensures { outcome result points.new ≡ judge (later_rows sound.shape sound.plan controls.now (length points.old)) (refuses Err points.old) (accepts sound.plan controls.now points.old) }
{
    let SoundShape { shape, plan } = sound;
    let basis = shape.basis;
    if basis != BEZIER {
        return Err(Reason::NotOffered.into());
    }
    let count = plan.points();
    check_lists(shape.count, controls, count, points.len())?;
    fill_spans(controls, plan.spans, plan.depth, points);
    Ok(count)
}

// Draws the outline of a shape of basis 1 in doubles: the checks of document 01 in its order, 1, 2, 24, 3, 4, 7, 8, 9. An accepted preview writes two numbers for each point
// from the start of the points on, x then y, in micrometres, exact and with zero as positive zero, keeps all past them, and answers how many points there are. A refusal
// answers its number and place and writes nothing.
pub fn preview(shape: Shape, controls: &[i32], points: &mut [f64]) -> Result<usize, Refusal>
    ensures { outcome result points.new ≡ previewing shape controls.now points.old }
{
    let sound = SoundShape::try_from(shape)?;
    preview_plan(sound, controls, points)
}
