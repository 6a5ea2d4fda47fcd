// The curve, exactly, on one axis: what a span's records mean and the three ways to its sums. No call here refuses anything: each says what it requires, and the
// crates above it check that before they call.
#![tactic(auto)]

pub mod bounds;
pub mod forward;
pub mod halving;
pub mod records;
pub mod rounding;
pub mod weights;

// The four bases of document 01, numbered 1 to 4 there, and a fifth. A cardinal curve has its parameter, in 64ths (document 02, request 7), and a loop, a B-spline whose
// records run round, has how many they are (request 8).
#[derive(Clone, Copy, Debug, PartialEq, Eq)]
pub enum Basis {
    Bezier,
    BSpline,
    Cardinal(usize),
    Hermite,
    Loop(usize),
}

// Four whole numbers of one axis: the records of a span, or its Bezier controls. How large they may be each function says: it is one bound for records, one for whole controls and one for a cut piece, so a type that kept it would be three.
#[derive(Clone, Copy, Debug, PartialEq, Eq)]
pub struct Four {
    pub a: i64,
    pub b: i64,
    pub c: i64,
    pub d: i64,
}

// A sum of the curve and its first, second and third forward differences.
#[derive(Clone, Copy, Debug, PartialEq, Eq)]
pub struct Differences {
    pub value: i64,
    pub first: i64,
    pub second: i64,
    pub third: i64,
}

// Every divisor of a sum is six times a power of two.
pub const SIX: u32 = 6;
// The greatest parameter of a cardinal curve, in 64ths: it is one.
pub const MOST_PARAMETER: usize = 64;
// A control coordinate is at most this far from zero, in micrometres.
pub const LIMIT: i32 = 4_000_000;
// The deepest outline: a span has at most 2^8 steps.
pub const DEEPEST: usize = 8;
// The steps of a span at that depth.
pub const MOST_STEPS: usize = 1 << DEEPEST;
