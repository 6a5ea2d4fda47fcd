// A program's arguments that are natural numbers: digits alone, one or more.
ghost use Rattle.std.specs.Prelude.{◌≡◌};
ghost use Rattle.listing.specs.Decimal.{worth_after};
ghost use Rattle.console.specs.Argument.{all_digits, held, number_of};

use std::env::Env;

// An argument is no number that is longer than this.
const LONGEST: usize = 4096;

// The program's argument at a place, the first at 1. One that is missing is no number.
pub fn read_argument(rt: &impl Env, at: usize) -> Option<usize> {
    let mut text = [0u8; LONGEST];
    let length = rt.arg(at, &mut text).ok()?;
    number_of(&text[..length])
}

// Reads a text as a natural number in decimal: this number, or the greatest that a usize holds where it is past that. None where the text is nothing at all, or has a character that is no
// digit.
pub fn number_of(text: &[u8]) -> Option<usize>
    ensures { result ≡ number_of text.now }
{
    if text.is_empty() || !all_digits(text) {
        return None;
    }
    Some(worth(text))
}

// Whether each character is a digit.
fn all_digits(text: &[u8]) -> bool
    ensures { result ≡ all_digits text.now }
{
    text.iter().all(u8::is_ascii_digit)
}

// What digits mean, the most significant first. The library's `parse` refuses a number past 64 bits, where this answers the greatest.
fn worth(text: &[u8]) -> usize
    ensures { result ≡ held (worth_after 0 text.now) }
{
    text.iter().fold(0usize, |total, c| {
        total
            .saturating_mul(10)
            .saturating_add(usize::from(c.saturating_sub(b'0')))
    })
}
