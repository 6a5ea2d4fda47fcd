// The one rounding of a point.
ghost use Rattle.std.specs.Prelude.{◌≡◌, ◌*◌, ◌≤◌, nat_abs};
ghost use Rattle.whole.specs.Nearest.{rounding};
ghost use Rattle.curve.specs.Inner.{bits_of, divisor_of, far_reach, most_bits};
ghost use Rattle.curve.specs.Ways.{deepest};

use crate::{Basis, SIX};
use whole::{Rounding, round_over};

// A divisor is 6 · 2^bits: these are the bits of a basis' divisor at a depth. For a cardinal span it is 192 = 6 · 2^5 times the power of two.
pub fn divisor_bits(basis: Basis, depth: usize) -> u32
    requires { depth ≤ deepest }
    ensures { result ≡ bits_of basis depth }
{
    let cubed = 3 * depth as u32;
    match basis {
        Basis::Cardinal(_) => cubed + 5,
        _ => cubed,
    }
}

// The coordinate of a sum, the whole number nearest to sum / (6 · 2^bits), and what is left over of the sum.
pub fn rounded(sum: i64, bits: u32) -> Rounding
    requires bits_le_most_bits { bits ≤ most_bits }
    requires sum_bound { nat_abs sum ≤ divisor_of bits * far_reach }
    ensures { result ≡ rounding sum (divisor_of bits) }
{
    round_over(sum, SIX, bits)
}
