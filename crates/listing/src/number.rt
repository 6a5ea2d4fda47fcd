// Numbers in decimal.
ghost use Rattle.std.specs.Prelude.{◌≡◌, ◌≤◌, length};
ghost use Rattle.whole.specs.Outcome.{outcome};
ghost use Rattle.listing.specs.Decimal.{natural, decimal};
ghost use Rattle.listing.specs.Written.{written};

use crate::word::put_word;
use itoa::Buffer;

// Writes n from place `at` on, if it fits. README names this call and the next, so neither goes into the other; what they share is `put_word`.
pub fn put_natural(text: &mut [u8], at: usize, n: u64) -> Option<usize>
    ensures { outcome result text.new ≡ written text.old at (natural n) }
{
    put_word(text, at, Buffer::new().format(n).as_bytes())
}

// Writes z from place `at` on, if it fits, with a minus sign where z is negative.
pub fn put_decimal(text: &mut [u8], at: usize, z: i64) -> Option<usize>
    ensures { outcome result text.new ≡ written text.old at (decimal z) }
{
    put_word(text, at, Buffer::new().format(z).as_bytes())
}

// How many digits n has: they are counted, since to lay them out for their number alone would cost as much as to write them.
pub(crate) fn width(n: u64) -> usize
    ensures value { result ≡ length (natural n) }
    ensures few { result ≤ 20 }
{
    match n.checked_ilog10() {
        Some(log) => log as usize + 1,
        None => 1,
    }
}

// How many characters z has.
pub(crate) fn decimal_width(z: i32) -> usize
    ensures value { result ≡ length (decimal z) }
    ensures few { result ≤ 21 }
{
    width(u64::from(z.unsigned_abs())) + usize::from(z < 0)
}
