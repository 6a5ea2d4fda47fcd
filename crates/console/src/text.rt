// A text that a program writes: a line, or several. Words and numbers go behind what stands there; one that does not fit is left out, and what comes next stands in its place.

use itoa::{Buffer, Integer};
use listing::put_word;
use std::fmt;
use std::marker::Model;

// The bit pattern that stands for every NaN: the quiet one's.
const QUIET_NAN: u64 = 0x7ff8_0000_0000_0000;

// A text of up to N characters. An array and its end, and no `ArrayVec`: `put_word`, which README names, writes into a list from a place on, and leaves the list as it was where a word does not fit.
#[derive(Drop)]
pub struct Text<const N: usize> {
    bytes: [u8; N],
    end: usize,
}

impl<const N: usize> Model for Text<N> {
    ghost use Rattle.std.specs.Prelude.{◌≤◌, ℕ, List, take};

    ghost Value = { List ℕ };

    ghost view = { λ t. take t.end t.bytes };

    ghost invariant = { λ t. t.end ≤ N };
}

impl<const N: usize> Text<N> {
    ghost use Rattle.std.specs.Prelude.{◌≡◌, ◌≤◌, [], ◌∷◌, ℕ, List, length};
    ghost use Rattle.console.specs.Text.{with_word, with_spaced, with_each, with_between};

    // No character.
    pub fn new() -> Self
        ensures { result ≡ [] }
    {
        Text {
            bytes: [0; N],
            end: 0,
        }
    }

    // The characters.
    pub fn written(&self) -> &[u8]
        ensures value { result.now ≡ self.now }
        ensures fits { length result.now ≤ N }
    {
        &self.bytes[..self.end]
    }

    // A word as it is.
    pub fn add_word(&mut self, word: &[u8])
        ensures { self.new ≡ with_word N self.old word.now }
    {
        let at = self.end;
        self.end = put_word(&mut self.bytes, at, word).unwrap_or(at);
    }

    // The end of a line.
    pub fn end_line(&mut self)
        ensures { self.new ≡ with_word N self.old (10 ∷ []) }
    {
        self.add_word(b"\n");
    }

    // A whole number, with a minus sign where it is negative.
    fn add_number<I: Integer>(&mut self, n: I)
        ensures { self.new ≡ with_word N self.old (I.text n) }
    {
        self.add_word(Buffer::new().format(n).as_bytes());
    }

    // A space and a word.
    fn add_spaced(&mut self, word: &[u8])
        ensures { self.new ≡ with_spaced N self.old word.now }
    {
        self.add_word(b" ");
        self.add_word(word);
    }

    // Whole numbers with a space between them.
    pub fn add_numbers<I: Integer>(&mut self, numbers: &[I])
        ensures { self.new ≡ with_between N I.text self.old numbers.now }
    {
        self.add_between(numbers, |n| n);
    }

    // The bit patterns of doubles with a space between them; of every NaN the quiet one's.
    pub fn add_patterns(&mut self, doubles: &[f64]) {
        self.add_between(doubles, pattern_of);
    }

    // The number that each item has, a space before each. All are laid out in one buffer: a new one for each took a quarter more instructions, where the numbers are small.
    fn add_each<T: Copy, I: Integer, F: Fn(T) -> I>(&mut self, items: &[T], number: F)
        requires { F.IsAlwaysCallable number }
        ensures { (text : T → List ℕ) → ((x : T) (n : I) → F.post number x n → I.text n ≡ text x) → self.new ≡ with_each N text self.old items.now }
    {
        let mut digits = Buffer::new();
        for item in items {
            self.add_spaced(digits.format(number(*item)).as_bytes());
        }
    }

    // The number that each item has, with a space between them.
    fn add_between<T: Copy, I: Integer, F: Fn(T) -> I>(&mut self, items: &[T], number: F)
        requires { F.IsAlwaysCallable number }
        ensures { (text : T → List ℕ) → ((x : T) (n : I) → F.post number x n → I.text n ≡ text x) → self.new ≡ with_between N text self.old items.now }
    {
        if let Some((first, others)) = items.split_first() {
            self.add_number(number(*first));
            self.add_each(others, number);
        }
    }
}

// The text of a format, which is refused where it does not fit: then nothing is added.
impl<const N: usize> fmt::Write for Text<N> {
    ghost use Rattle.std.specs.Prelude.{◌≡◌, ◌+◌, ◌≤◌, ◌↔◌, ◌++◌, length, IsOk, OnErr};

    ghost write_str_gives = { λ before word after. after ≡ before ++ word };

    fn write_str(&mut self, s: &str) -> fmt::Result
        ensures ok { IsOk result → self.new ≡ self.old ++ s.now }
        ensures variant { IsOk result ↔ (length self.old + length s.now ≤ N) }
        ensures err { OnErr result (self.new ≡ self.old) }
    {
        if N - self.written().len() < s.len() {
            return Err(fmt::Error);
        }
        self.add_word(s.as_bytes());
        Ok(())
    }
}

// A double's bit pattern.
fn pattern_of(x: f64) -> u64 {
    if x.is_nan() { QUIET_NAN } else { x.to_bits() }
}
