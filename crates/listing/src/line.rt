// A line of a listing, which is built before it is put: so it is put whole or not at all.
ghost use Rattle.std.specs.Prelude.{◌≡◌, ◌+◌, ◌<◌, ◌≤◌, ◌++◌, [], ◌∷◌};
ghost use Rattle.arrayvec.specs.ArrayVec.{array_vec_len};
ghost use Rattle.listing.specs.Listing.{numbers_line};
ghost use Rattle.listing.specs.Inner.{Heads};

use arrayvec::ArrayVec;
use itoa::{Buffer, Integer};

// The longest line has five numbers of up to 20 characters, and one after each.
const LONGEST: usize = 105;

// The characters of a line.
pub(crate) type Line = ArrayVec<u8, LONGEST>;

// Adds a number in decimal, and a character after it.
pub(crate) fn add_number<I: Integer>(line: &mut Line, n: I, mark: u8)
    requires { array_vec_len line.old + I.MAX_STR_LEN < LONGEST }
    ensures added { line.new.items ≡ line.old.items ++ (I.text n ++ mark ∷ []) }
    ensures len { array_vec_len line.new ≤ array_vec_len line.old + I.MAX_STR_LEN + 1 }
{
    let mut digits = Buffer::new();
    line.try_extend_from_slice(digits.format(n).as_bytes())
        .unwrap();
    line.push(mark);
}

// The line of natural numbers, as the heading of a listing is: a space after each, and after the last
// a newline.
pub(crate) fn numbers_line(numbers: &[usize]) -> Line
    requires { Heads numbers.now }
    ensures { result.items ≡ numbers_line numbers.now }
{
    let mut line = Line::new();
    let (last, before) = numbers.split_last().unwrap();
    for number in before {
        add_number(&mut line, *number, b' ');
    }
    add_number(&mut line, *last, b'\n');
    line
}
