// One point in the lent list.
ghost use Rattle.std.specs.Prelude.{◌≡◌, [], ◌∷◌, ◌+◌, ◌*◌, ◌≤◌, ◌<◌, nat_abs, length};
ghost use Rattle.whole.specs.Outcome.{outcome};
ghost use Rattle.curve.specs.Inner.{far_reach, divisor_of, most_bits};
ghost use Rattle.spans.specs.Inner.{rounds};

use curve::rounding::rounded;
use whole::is_multiple;

// One number, from the sum of its axis over 6 · 2^bits: rounded once, and counted where nothing is left over. It answers how many numbers are exact: `exact` before it, and this one where it is.
// Few sums are multiples of 2^bits, and of any other something is left over, so that nobody need look at how much. Each of the two has a rounding of its own: with one for both a point costs up to four fifths more.
fn put_number(points: &mut [i32], at: usize, bits: u32, sum: i64, exact: usize) -> usize
    requires bits_le_most_bits { bits ≤ most_bits }
    requires sum_bound { nat_abs sum ≤ divisor_of bits * far_reach }
    requires at_in_bounds { (at < length points.old) × (exact ≤ at) }
    ensures { outcome result points.new ≡ rounds (divisor_of bits) (sum ∷ []) at exact points.old }
{
    if !is_multiple(sum, bits) {
        points[at] = rounded(sum, bits).whole as i32;
        return exact;
    }
    let rounding = rounded(sum, bits);
    points[at] = rounding.whole as i32;
    if rounding.remainder == 0 {
        exact + 1
    } else {
        exact
    }
}

// The two numbers of a point, each counted by itself. That there is room is said of a list and a place: a type of both would be made anew at each point, and would be no plainer.
pub fn put_point(points: &mut [i32], at: usize, bits: u32, x: i64, y: i64, exact: usize) -> usize
    requires bits_le_most_bits { bits ≤ most_bits }
    requires x_bound { (nat_abs x ≤ divisor_of bits * far_reach) × (nat_abs y ≤ divisor_of bits * far_reach) }
    requires at_in_bounds { (at + 2 ≤ length points.old) × (exact ≤ at) }
    ensures { outcome result points.new ≡ rounds (divisor_of bits) (x ∷ y ∷ []) at exact points.old }
{
    let on_x = put_number(points, at, bits, x, exact);
    put_number(points, at + 1, bits, y, on_x)
}
