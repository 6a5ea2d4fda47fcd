// Doubles: midpoints of exact doubles, and a drawing number in millimetres as whole micrometres. No public call has a `requires`.
#![tactic(auto)]

ghost use Rattle.std.specs.Prelude.{◌≡◌, ◌*◌, ◌^◌, ◌<◌};
ghost use Rattle.std.specs.Float.{binary64};
ghost use Rattle.std.specs.Float.Ieee.{of_bits};
ghost use Rattle.whole.specs.Nearest.{nearest};
ghost use Rattle.doubles.specs.Exact.{signed, dyadic};
ghost use Rattle.doubles.specs.Midpoint.{mid, mid_pair};
ghost use Rattle.doubles.specs.Number.{thousand, within, measure};

use curve::LIMIT;
use whole::half_up;

// A point of the preview: a pair of doubles, in micrometres.
#[derive(Clone, Copy, Debug, PartialEq)]
pub struct Pair {
    pub x: f64,
    pub y: f64,
}

// Why a drawing number is no coordinate.
#[derive(Clone, Copy, Debug, PartialEq, Eq)]
pub enum Unmeasured {
    NotFinite,
    Outside,
}

// The limit of a coordinate either way, among the sizes that are rounded.
const FARTHEST: u64 = LIMIT as u64;

// Micrometres in a millimetre.
const THOUSAND: u64 = 1000;

// A double's bit pattern, by IEEE 754, is its sign, the exponent's field and the digits below the leading one. This is the sign's weight.
const SIGN: u64 = 1 << 63;

// The weight of the exponent's field, and of the leading digit.
const LEADING: u64 = 1 << 52;

// An exponent's field of all ones: an infinity or a NaN. Any other field x above 0 stands for (2^52 + digits) / 2^(1075 - x), which is 2^(x - 1023) or more.
const ONES: u64 = 2047;

// Below this field a double in millimetres is less than 2^-11, which is under half a micrometre.
const SMALL: u64 = 1012;

// Above this field a double in millimetres is 2^12 or more, which is outside limits.
const LARGE: u64 = 1034;

// 1075, less the two places of a quarter.
const QUARTERS: u64 = 1073;

// A coordinate as a double: nothing is lost, and zero is +0.
pub fn double_of(z: i32) -> f64
    ensures { result ≡ dyadic z 0 }
{
    f64::from(z)
}

// Halfway from a to b.
pub fn midpoint(a: f64, b: f64) -> f64
    ensures { result ≡ mid a b }
{
    (a + b) / 2.0
}

// Halfway from the point a to the point b. A function and no method of Pair, since README's table of calls names it.
pub fn midpoint_pair(a: Pair, b: Pair) -> Pair
    ensures { result ≡ mid_pair a b }
{
    Pair {
        x: midpoint(a.x, b.x),
        y: midpoint(a.y, b.y),
    }
}

// A rounded size with its sign put back, if it is within limits.
fn coordinate(negative: bool, size: u64) -> Result<i32, Unmeasured>
    ensures { result ≡ within (signed negative size) }
{
    if FARTHEST < size {
        return Err(Unmeasured::Outside);
    }
    let n = size as i32;
    Ok(if negative { -n } else { n })
}

// The millimetres digits / (4 · 2^bits), negative where it is said, as micrometres.
fn scaled(negative: bool, digits: u64, bits: u32) -> Result<i32, Unmeasured>
    requires { (digits < 2 ^ 53) × (bits < 64) }
    ensures { result ≡ within (nearest (signed negative (digits * thousand)) (4 * 2 ^ bits)) }
{
    coordinate(negative, half_up(digits * THOUSAND, 4, bits))
}

// What the double of a bit pattern means, by its fields alone.
fn of_pattern(bits: u64) -> Result<i32, Unmeasured>
    ensures { result ≡ measure (of_bits binary64 bits) }
{
    let field = bits % SIGN / LEADING;
    let digits = bits % LEADING;
    if field < SMALL {
        return Ok(0);
    }
    if field == ONES {
        return Err(Unmeasured::NotFinite);
    }
    if LARGE < field {
        return Err(Unmeasured::Outside);
    }
    scaled(SIGN <= bits, LEADING + digits, (QUARTERS - field) as u32)
}

// What a drawing number means, for every double. A NaN has no bit pattern of its own, and any other double has one.
pub fn micrometres(mm: f64) -> Result<i32, Unmeasured>
    ensures { result ≡ measure mm }
{
    if mm.is_nan() {
        Err(Unmeasured::NotFinite)
    } else {
        of_pattern(mm.to_bits())
    }
}
