// Whole numbers with a sign: how an exact sum is rounded once. Signed sums are 64 bits wide, and each is proved to fit.
#![tactic(auto)]

ghost use Rattle.std.specs.Prelude.{◌≡◌, ◌+◌, ◌*◌, ◌%◌, ◌^◌, ◌≤◌, ◌<◌, nat_abs};
ghost use Rattle.whole.specs.Nearest.{half_up, rounding};
ghost use Rattle.whole.specs.Inner.{farthest, half_to_greater, moved, multiple_of, Roundable};

// The whole number nearest to size / (multiple · 2^bits), an exact half up. The power of two is a shift, and what is left is a literal where the caller's multiple is one.
pub fn half_up(size: u64, multiple: u32, bits: u32) -> u64
    requires size_bound { (size < 2 ^ 63) × (bits < 64) }
    requires multiple_nonzero { (0 < multiple) × (multiple % 2 ≡ 0) }
    ensures { result ≡ half_up size (multiple * 2 ^ bits) }
{
    ((size >> bits) + (multiple / 2) as u64) / multiple as u64
}

// A fraction rounded once: the whole number, and what is left over, the exact value less that number, over the same divisor.
#[derive(Clone, Copy, Debug, PartialEq, Eq)]
pub struct Rounding {
    pub whole: i64,
    pub remainder: i64,
}

// Every number that is rounded to is less than this far from zero, so that lifted by this much it is above zero.
const LIFT: u32 = 1 << 23;

// Whether a sum is a multiple of 2^bits. Over an even multiple of 2^bits no other sum is a whole number or a half.
pub fn is_multiple(sum: i64, bits: u32) -> bool
    requires { (nat_abs sum < 2 ^ 63) × (bits < 63) }
    ensures { result ≡ multiple_of (2 ^ bits) sum }
{
    sum % (1 << bits) == 0
}

// The sum, or one less where it is below zero and may be a half: a half that goes to the greater then goes away from zero there too. What is no half is rounded alike, one less or not.
fn outwards(sum: i64, bits: u32) -> i64
    requires { (nat_abs sum < 2 ^ 62) × (bits < 63) }
    ensures { result ≡ moved (2 ^ bits) sum }
{
    if sum < 0 && is_multiple(sum, bits) {
        sum - 1
    } else {
        sum
    }
}

// The whole number nearest to sum / (multiple · 2^bits), an exact half to the greater. The power of two is a shift, and what is left is lifted above zero, where 32 bits hold it, and divided
// by a literal where the caller's multiple is one.
fn nearest_up(sum: i64, multiple: u32, bits: u32) -> i64
    requires roundable { Roundable multiple bits }
    requires sum_bound { nat_abs sum ≤ multiple * 2 ^ bits * farthest + 1 }
    ensures { result ≡ half_to_greater multiple (2 ^ bits) sum }
{
    let lifted = (sum >> bits) + (multiple * LIFT + multiple / 2) as i64;
    (lifted as u32 / multiple) as i64 - LIFT as i64
}

// The whole number nearest to sum / (multiple · 2^bits), an exact half away from zero, and the remainder: sum = whole · multiple · 2^bits + remainder.
pub fn round_over(sum: i64, multiple: u32, bits: u32) -> Rounding
    requires roundable { Roundable multiple bits }
    requires sum_bound { nat_abs sum ≤ multiple * 2 ^ bits * farthest }
    ensures { result ≡ rounding sum (multiple * 2 ^ bits) }
{
    let whole = nearest_up(outwards(sum, bits), multiple, bits);
    let divisor = (multiple as i64) << bits;
    Rounding {
        whole,
        remainder: sum - divisor * whole,
    }
}
