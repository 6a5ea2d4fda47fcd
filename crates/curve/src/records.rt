// Which records a span uses, and its Bezier controls, so many times that all are whole.
ghost use Rattle.std.specs.Prelude.{◌≡◌, [], ◌∷◌, ◌+◌, ◌*◌, ◌^◌, ◌≤◌, ◌<◌, nat_abs, length};
ghost use Rattle.curve.specs.Published.{most_parameter};
ghost use Rattle.curve.specs.Limits.{Inside, limit, parameter_of};
ghost use Rattle.curve.specs.Inner.{Holds, HoldsFrom};
ghost use Rattle.curve.specs.Span.{stride, first_record, records_from, round_end, is_loop, record_at, recount, records, coordinate, whole_controls};

use crate::{Basis, Four};

// How many records after a span's first the next span's first is: the one number of a basis that counts and places follow from.
pub fn stride_of(basis: Basis) -> usize
    ensures { result ≡ stride basis }
{
    match basis {
        Basis::Bezier => 3,
        Basis::Hermite => 2,
        Basis::BSpline | Basis::Cardinal(_) | Basis::Loop(_) => 1,
    }
}

// The first of the four records that a span uses.
pub fn first_record(basis: Basis, span: usize) -> usize
    requires { span < 2 ^ 62 }
    ensures { result ≡ first_record basis span }
{
    stride_of(basis) * span
}

// A number counted round the end of `count`: past the last comes the first again.
pub fn round_end(count: usize, number: usize) -> usize
    ensures { result ≡ round_end count number }
{
    if number < count {
        number
    } else {
        number - count
    }
}

// Whether the records of a basis run round.
pub fn is_loop(basis: Basis) -> bool
    ensures { result ≡ is_loop basis }
{
    matches!(basis, Basis::Loop(_))
}

// A record as a basis counts its records: those of a loop run round.
pub fn record_at(basis: Basis, place: usize) -> usize
    ensures { result ≡ record_at basis place }
{
    match basis {
        Basis::Loop(count) => round_end(count, place),
        _ => place,
    }
}

// The same basis with another number of records: a loop alone says how many it has.
pub fn recounted(count: usize, basis: Basis) -> Basis
    ensures { result ≡ recount count basis }
{
    match basis {
        Basis::Loop(_) => Basis::Loop(count),
        open => open,
    }
}

// Four records from `first` on, as a basis counts them: those of an open one stand for themselves, and need not be counted.
fn four_places(basis: Basis, first: usize) -> [usize; 4]
    requires { first ≤ 3 * 2 ^ 62 }
    ensures { result ≡ record_at basis first ∷ record_at basis (first + 1) ∷ record_at basis (first + 2) ∷ record_at basis (first + 3) ∷ [] }
{
    match basis {
        Basis::Loop(count) => [
            round_end(count, first),
            round_end(count, first + 1),
            round_end(count, first + 2),
            round_end(count, first + 3),
        ],
        _ => [first, first + 1, first + 2, first + 3],
    }
}

// The coordinate of a record on an axis: 0 is x, 1 is y. An axis is a number here and above, since it is the place of its coordinate in a record; an enum would be counted out again at each read.
fn coordinate_of(controls: &[i32], place: usize, axis: usize) -> i64
    requires { (axis < 2) × (2 * place + 2 ≤ length controls.now) }
    ensures { result ≡ coordinate controls.now axis place }
{
    controls[2 * place + axis] as i64
}

// The four records of a span on an axis.
pub fn four_records(controls: &[i32], basis: Basis, span: usize, axis: usize) -> Four
    requires { (span < 2 ^ 62) × (axis < 2) × Holds basis span (length controls.now) }
    ensures { result ≡ records basis span (coordinate controls.now axis) }
{
    let [a, b, c, d] = four_places(basis, first_record(basis, span));
    Four {
        a: coordinate_of(controls, a, axis),
        b: coordinate_of(controls, b, axis),
        c: coordinate_of(controls, c, axis),
        d: coordinate_of(controls, d, axis),
    }
}

// The four Bezier controls of a span: six times, and of a cardinal one 192 times.
pub fn whole_controls(basis: Basis, p: Four) -> Four
    requires { (parameter_of basis ≤ most_parameter) × Inside limit p }
    ensures { result ≡ whole_controls basis p }
{
    match basis {
        Basis::Bezier => bezier_controls(p),
        Basis::BSpline | Basis::Loop(_) => bspline_controls(p),
        Basis::Cardinal(parameter) => cardinal_controls(parameter, p),
        Basis::Hermite => hermite_controls(p),
    }
}

fn bezier_controls(p: Four) -> Four
    requires { Inside limit p }
    ensures { result ≡ whole_controls Basis.Bezier p }
{
    Four {
        a: 6 * p.a,
        b: 6 * p.b,
        c: 6 * p.c,
        d: 6 * p.d,
    }
}

fn bspline_controls(p: Four) -> Four
    requires { Inside limit p }
    ensures { result ≡ whole_controls Basis.BSpline p }
{
    Four {
        a: p.a + 4 * p.b + p.c,
        b: 4 * p.b + 2 * p.c,
        c: 2 * p.b + 4 * p.c,
        d: p.b + 4 * p.c + p.d,
    }
}

// The parameter is in 64ths, and the inner controls have a third of it: 192 = 3 · 64 times, all is whole.
fn cardinal_controls(parameter: usize, p: Four) -> Four
    requires { (parameter ≤ most_parameter) × Inside limit p }
    ensures { result ≡ whole_controls (Basis.Cardinal parameter) p }
{
    let taut = parameter as i64;
    Four {
        a: 192 * p.b,
        b: 192 * p.b + taut * (p.c - p.a),
        c: 192 * p.c - taut * (p.d - p.b),
        d: 192 * p.c,
    }
}

// The records of a Hermite span are its start, its start tangent, its end and its end tangent.
fn hermite_controls(p: Four) -> Four
    requires { Inside limit p }
    ensures { result ≡ whole_controls Basis.Hermite p }
{
    let Four {
        a: start,
        b: leaving,
        c: end,
        d: arriving,
    } = p;
    Four {
        a: 6 * start,
        b: 6 * start + 2 * leaving,
        c: 6 * end - 2 * arriving,
        d: 6 * end,
    }
}
