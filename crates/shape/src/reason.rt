// Why a call is refused: the rows of the refusal table, by name.
ghost use Rattle.std.specs.Prelude.{◌≡◌};
ghost use Rattle.shape.specs.Reasons.{number_of, refusal_at};

use crate::Refusal;

// What is wrong, in the order of the table's numbers.
#[derive(Clone, Copy, Debug, PartialEq, Eq)]
pub enum Reason {
    UnknownBasis,
    TooDeep,
    WrongCount,
    NotOffered,
    NoSuchRecord,
    CountAtItsLimit,
    ShortControls,
    OutsideLimits,
    ShortPoints,
    NotFinite,
    TooFar,
    OutOfTurn,
    BrokenRecord,
    SpareByte,
    UnlikeFirst,
    TooCoarse,
    NotFlat,
    TooManyCuts,
    TooTaut,
}

impl Reason {
    // The number that the table gives it.
    pub fn number(self) -> usize
        ensures { result ≡ number_of self }
    {
        match self {
            Reason::UnknownBasis => 1,
            Reason::TooDeep => 2,
            Reason::WrongCount => 3,
            Reason::NotOffered => 4,
            Reason::NoSuchRecord => 5,
            Reason::CountAtItsLimit => 6,
            Reason::ShortControls => 7,
            Reason::OutsideLimits => 8,
            Reason::ShortPoints => 9,
            Reason::NotFinite => 10,
            Reason::TooFar => 11,
            Reason::OutOfTurn => 12,
            Reason::BrokenRecord => 13,
            Reason::SpareByte => 14,
            Reason::UnlikeFirst => 15,
            Reason::TooCoarse => 20,
            Reason::NotFlat => 21,
            Reason::TooManyCuts => 22,
            Reason::TooTaut => 24,
        }
    }

    // The refusal at a place.
    pub fn at(self, place: usize) -> Refusal
        ensures { result ≡ refusal_at self place }
    {
        Refusal {
            number: self.number(),
            place,
        }
    }
}

// The refusal whose place is 0, as it is where the table says nothing of it.
impl From<Reason> for Refusal {
    ghost from_gives = { λ reason refusal. refusal ≡ refusal_at reason 0 };

    fn from(reason: Reason) -> Refusal {
        reason.at(0)
    }
}
