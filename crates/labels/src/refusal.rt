// Why a call was refused: each case has the number that users are told.
ghost use Rattle.std.specs.Prelude.{◌≡◌, Some};
ghost use Rattle.labels.specs.Refusal.{refusal_number, refusal_place, refusal_text};

use std::error::Error;
use std::fmt;

#[derive(Clone, Copy, Debug, PartialEq, Eq)]
pub enum Refusal {
    // An image of fewer bytes than a header has.
    ImageTooShort,
    // A version other than 1.
    UnknownVersion,
    // Parameters that an order does not take, or a name that is not the order's.
    WrongOrder,
    // A count of code entries or cells outside its limits.
    CountOutsideLimits,
    // An image that is not as long as its counts say.
    WrongImageLength,
    // A tag that is no label: the reader's at place 0, or the first entry's, from 1, code and then cells.
    NotALabel { place: u16 },
    // A list of another length than is wanted.
    WrongLength,
    // A call that the sitting's state does not allow.
    WrongState,
    // A peek at a register or cell before the end mark.
    NoEndMark,
    // A register or cell that there is not.
    OutOfRange,
    // A table for another number of labels, or of rows, than is possible.
    WrongTableSize,
    // A slot for a closing record that is not twelve bytes long.
    WrongSlotLength,
}

impl Refusal {
    // The number that users are told. (An enum with a field in one case has no `as u8`.)
    pub fn number(self) -> u8
        ensures { result ≡ refusal_number self }
    {
        match self {
            Refusal::ImageTooShort => 1,
            Refusal::UnknownVersion => 2,
            Refusal::WrongOrder => 3,
            Refusal::CountOutsideLimits => 4,
            Refusal::WrongImageLength => 5,
            Refusal::NotALabel { place: _ } => 6,
            Refusal::WrongLength => 7,
            Refusal::WrongState => 8,
            Refusal::NoEndMark => 9,
            Refusal::OutOfRange => 10,
            Refusal::WrongTableSize => 11,
            Refusal::WrongSlotLength => 12,
        }
    }

    // The place of the tag that is no label, for the refusal that has one.
    pub fn place(self) -> Option<u16>
        ensures { result ≡ refusal_place self }
    {
        match self {
            Refusal::NotALabel { place } => Some(place),
            _ => None,
        }
    }
}

// The number, and behind a space the place if there is one.
impl fmt::Display for Refusal {
    ghost output = { λ r. Some (refusal_text r) };

    fn fmt<W: fmt::Write>(&self, f: &mut fmt::Formatter<W>) -> fmt::Result {
        let number = self.number();
        match self.place() {
            Some(place) => write!(f, "{number} {place}"),
            None => write!(f, "{number}"),
        }
    }
}

impl Error for Refusal {}
