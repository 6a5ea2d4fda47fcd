// One span as the ways draw it.
ghost use Rattle.std.specs.Prelude.{◌≤◌};
ghost use Rattle.curve.specs.Inner.{divisor_of, most_bits};
ghost use Rattle.curve.specs.Ways.{deepest};
ghost use Rattle.spans.specs.Inner.{Ready, Ready-prop};

use curve::Four;

// A span at a depth: the bits of its divisor, and the whole controls of both axes, from which each of its sums can be worked and rounded.
#[derive(Clone, Copy)]
pub struct Span {
    pub depth: usize,
    pub bits: u32,
    pub x: Four,
    pub y: Four,
    pub ghost shallow: { depth ≤ deepest },
    pub ghost few: { bits ≤ most_bits },
    pub ghost ready_x: { Ready depth (divisor_of bits) x } by { Ready-prop depth (divisor_of bits) x },
    pub ghost ready_y: { Ready depth (divisor_of bits) y } by { Ready-prop depth (divisor_of bits) y },
}
