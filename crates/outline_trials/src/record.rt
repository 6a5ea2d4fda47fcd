// The records of a trials file (docs/TRIALS.md): what 56 bytes hold, and what they ask for.
use crate::bench::{LONGEST_CONTROLS, LONGEST_POINTS, LONGEST_PREVIEW};
use crate::trial::{Call, Lengths, List, Setting, Trial, Way};
use drawing::{Control, State, Step};
use edit::Edit;
use shape::Shape;

// The bytes of a record: the first is the operation, seven are not looked at, and six numbers follow.
pub(crate) const RECORD: usize = 56;

// A record may bring bytes of the file, from this one on.
const FILE_BYTES: usize = 16;

// The weight of a double's sign in its bit pattern, and the pattern of the infinity above zero. Past that are the patterns of a NaN.
const SIGN: u64 = 1 << 63;

const INFINITY: u64 = 0x7ff0_0000_0000_0000;

// A number of a record: eight bytes, low byte first.
#[derive(Clone, Copy)]
struct Number([u8; 8]);

impl Number {
    // A whole number, which stands in two's complement.
    fn whole(self) -> i64 {
        i64::from_le_bytes(self.0)
    }

    // A whole number of 32 bits.
    fn coordinate(self) -> Option<i32> {
        i32::try_from(self.whole()).ok()
    }

    // A natural number of 32 bits.
    fn natural(self) -> Option<usize> {
        u32::try_from(self.whole()).ok().map(|n| n as usize)
    }

    // A natural number below 2^63.
    fn place(self) -> Option<usize> {
        usize::try_from(self.whole()).ok()
    }

    // A natural number up to the most that there may be.
    fn length(self, most: usize) -> Option<usize> {
        self.place().filter(|n| *n <= most)
    }

    // The double of a bit pattern: of every pattern of a NaN the NaN.
    fn double(self) -> f64 {
        let bits = u64::from_le_bytes(self.0);
        if bits % SIGN <= INFINITY {
            f64::from_bits(bits)
        } else {
            f64::NAN
        }
    }
}

// Two numbers as a record's coordinates.
fn control(x: Number, y: Number) -> Option<Control> {
    Some(Control {
        x: x.coordinate()?,
        y: y.coordinate()?,
    })
}

// An operation and six numbers, beside the bytes that they were read from.
#[derive(Clone, Copy)]
pub(crate) struct Record<'a> {
    bytes: &'a [u8; RECORD],
    operation: u8,
    a: Number,
    b: Number,
    c: Number,
    d: Number,
    e: Number,
    f: Number,
}

impl<'a> Record<'a> {
    pub(crate) fn new(bytes: &'a [u8; RECORD]) -> Record<'a> {
        let (numbers, _) = bytes.as_chunks::<8>();
        Record {
            bytes,
            operation: bytes[0],
            a: Number(numbers[1]),
            b: Number(numbers[2]),
            c: Number(numbers[3]),
            d: Number(numbers[4]),
            e: Number(numbers[5]),
            f: Number(numbers[6]),
        }
    }

    // What it asks for; nothing where the record is bad.
    pub(crate) fn trial(self) -> Option<Trial<'a>> {
        Some(match self.operation {
            1 => Trial::Set(Setting::Lists(self.lengths()?, self.d.coordinate()?)),
            2 => Trial::Set(Setting::Shape(self.shape()?)),
            3 => Trial::Set(Setting::Control(self.a.place()?, self.b.coordinate()?)),
            4 => Trial::Set(Setting::Point(self.a.place()?, self.b.coordinate()?)),
            5 => Trial::Set(Setting::EmptyFile),
            6 => Trial::Set(Setting::MoreFile(self.more_file()?)),
            10 => Trial::Call(Call::Draw(Way::Weights)),
            11 => Trial::Call(Call::Draw(Way::Halving)),
            12 => Trial::Call(Call::Draw(Way::Differences)),
            13 => Trial::Call(Call::Cut(self.a.place()?, self.b.place()?)),
            20 => Trial::Call(Call::Edit(self.a.place()?, self.moved()?)),
            21 => Trial::Call(Call::Edit(self.a.place()?, self.inserted()?)),
            22 => Trial::Call(Call::Edit(self.a.place()?, Edit::Remove)),
            30 => Trial::Call(Call::View(self.a.place()?)),
            40 => Trial::Call(Call::Preview),
            50 => Trial::Set(Setting::State(self.state()?)),
            51 => Trial::Call(Call::Step(Step::Move(self.a.double(), self.b.double()))),
            52 => Trial::Call(Call::Step(Step::Line(self.a.double(), self.b.double()))),
            53 => Trial::Call(Call::Step(self.cubic())),
            54 => Trial::Call(Call::Step(Step::Close)),
            55 => Trial::Call(Call::ReadFile),
            56 => Trial::Call(Call::ListFile),
            60 => Trial::Show(List::Controls),
            61 => Trial::Show(List::Points),
            62 => Trial::Show(List::Preview),
            _ => return None,
        })
    }

    fn lengths(self) -> Option<Lengths> {
        Some(Lengths {
            controls: self.a.length(LONGEST_CONTROLS)?,
            points: self.b.length(LONGEST_POINTS)?,
            preview: self.c.length(LONGEST_PREVIEW)?,
        })
    }

    fn shape(self) -> Option<Shape> {
        Some(Shape {
            basis: self.a.natural()?,
            depth: self.b.natural()?,
            count: self.c.natural()?,
            parameter: self.d.natural()?,
        })
    }

    // The first so many of the bytes that stand in the record, one at least.
    fn more_file(self) -> Option<&'a [u8]> {
        let more = self.a.natural().filter(|n| *n != 0)?;
        let bytes = self.bytes;
        bytes[FILE_BYTES..].get(..more)
    }

    // The last number says whether the drawing is closed.
    fn state(self) -> Option<State> {
        Some(State {
            count: self.a.natural()?,
            start: control(self.b, self.c)?,
            current: control(self.d, self.e)?,
            closed: self.f.length(1)? == 1,
        })
    }

    // A record moved to b and c.
    fn moved(self) -> Option<Edit> {
        let at = control(self.b, self.c)?;
        Some(Edit::Move(at.x, at.y))
    }

    // A new record at b and c.
    fn inserted(self) -> Option<Edit> {
        let at = control(self.b, self.c)?;
        Some(Edit::Insert(at.x, at.y))
    }

    fn cubic(self) -> Step {
        Step::Cubic(
            self.a.double(),
            self.b.double(),
            self.c.double(),
            self.d.double(),
            self.e.double(),
            self.f.double(),
        )
    }
}
