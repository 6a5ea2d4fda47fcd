// The listing of an outline: a heading, and a line for each point.
ghost use Rattle.std.specs.Prelude.{◌+◌, ◌^◌, ◌≤◌, ◌<◌, ◌++◌, ◌≡◌, length, MatchOption};
ghost use Rattle.whole.specs.Outcome.{outcome};
ghost use Rattle.listing.specs.Listing.{heading_text, point_line, point_lines, listed_by, listed_chosen};
ghost use Rattle.listing.specs.Inner.{pair_lines};
ghost use Rattle.listing.specs.Written.{written};

use crate::line::{Line, add_number, numbers_line};
use crate::number::{decimal_width, width};
use crate::word::put_word;

// Writes the first line of an outline's listing from the start of `text`, if it fits.
pub fn list_heading(
    text: &mut [u8],
    basis: usize,
    depth: usize,
    spans: usize,
    points: usize,
) -> Option<usize>
    ensures { outcome result text.new ≡ written text.old 0 (heading_text basis depth spans points) }
{
    let heading = [basis, depth, spans, points];
    put_word(text, 0, numbers_line(&heading).as_slice())
}

// Writes the lines of the first `count` points, which stand in `points` as x then y, from the start of
// `text`, if they fit. The first of them has the number `first`. None, too, where `points` holds fewer. README names this call with a list and a count.
pub fn list_points(text: &mut [u8], first: u32, points: &[i32], count: usize) -> Option<usize>
    ensures { outcome result text.new ≡ listed_by (point_lines first) text.old points.now count }
{
    list_under(text, b"", first as usize, points, count)
}

// Writes the listing of an outline with steps chosen by tolerance from the start of `text`, if it fits:
// a heading that has the tolerance where the depth stands, and the cuts last, and the lines of the first
// `count` points. None, too, where `points` holds fewer.
pub fn list_chosen(
    text: &mut [u8],
    basis: usize,
    tolerance: usize,
    spans: usize,
    points: &[i32],
    count: usize,
    cuts: usize,
) -> Option<usize>
    ensures { outcome result text.new ≡ listed_chosen text.old basis tolerance spans points.now count cuts }
{
    let heading = [basis, tolerance, spans, count, cuts];
    list_under(text, numbers_line(&heading).as_slice(), 0, points, count)
}

// A heading, and the lines of the first `count` points under it, the first of them with the number
// `first`.
fn list_under(
    text: &mut [u8],
    heading: &[u8],
    first: usize,
    points: &[i32],
    count: usize,
) -> Option<usize>
    requires { first < 2 ^ 32 }
    ensures { outcome result text.new ≡ listed_by (λ ps. heading.now ++ point_lines first ps) text.old points.now count }
{
    let (pairs, _) = points.as_chunks::<2>();
    let pairs = pairs.get(..count)?;
    let room = text.len().checked_sub(heading.len())?;
    room_under(room, first, pairs)?;
    put_word(text, 0, heading)?;
    put_points(text, heading.len(), first, pairs)
}

// The line of a point: its number, its x and its y.
fn point_line(number: usize, x: i32, y: i32) -> Line
    ensures { result.items ≡ point_line number x y }
{
    let mut line = Line::new();
    add_number(&mut line, number, b' ');
    add_number(&mut line, x, b' ');
    add_number(&mut line, y, b'\n');
    line
}

// How many characters that line has: three numbers, and one after each.
fn point_width(number: usize, x: i32, y: i32) -> usize
    ensures { result ≡ length (point_line number x y) }
{
    width(number as u64) + decimal_width(x) + decimal_width(y) + 3
}

// How much of so much room is left under the lines of the points, the first of them with the number
// `first`. None where they do not fit.
fn room_under(room: usize, first: usize, points: &[[i32; 2]]) -> Option<usize>
    requires { first < 2 ^ 32 }
    ensures { MatchOption result (room < length (pair_lines first points.now)) (λ left. left + length (pair_lines first points.now) ≡ room) }
{
    let mut left = room;
    for (i, &[x, y]) in points.iter().enumerate() {
        left = left.checked_sub(point_width(first + i, x, y))?;
    }
    Some(left)
}

// Writes the lines of the points from place `at` on, the first of them with the number `first`. A text and a place, as `put_word` takes them.
fn put_points(text: &mut [u8], at: usize, first: usize, points: &[[i32; 2]]) -> Option<usize>
    requires first_bound { first < 2 ^ 32 }
    requires points_in_bounds { at + length (pair_lines first points.now) ≤ length text.old }
    ensures { outcome result text.new ≡ written text.old at (pair_lines first points.now) }
{
    let mut end = at;
    for (i, &[x, y]) in points.iter().enumerate() {
        end = put_word(text, end, point_line(first + i, x, y).as_slice())?;
    }
    Some(end)
}
