ghost use Rattle.std.specs.Prelude.{◌≡◌};
ghost use Rattle.book.specs.Refusals.{numbered};

use market::{UnknownClass, UnknownRank};
use std::fmt;

// Why a call on a book is declined, with the number by which the refusal is known in every document and program.
#[derive(Clone, Copy, PartialEq, Eq, Debug)]
pub enum Refusal {
    // A figure is outside its limits, or a transfer moves nothing.
    PastLimit = 1,
    // The plant is not enrolled.
    NotEnrolled = 2,
    // The contract is not in the book.
    NoContract = 3,
    // The plant or the new contract number is there already, or the plant is issued already.
    AlreadyThere = 4,
    // A plant concerned is closed.
    Closed = 5,
    // The class may not hold the rank or may not transfer, or the giver is the receiver.
    NotPermitted = 6,
    // A transfer above the contract's energy, or more commissioning than metered energy.
    TooMuch = 7,
    // 256 contracts stand.
    Full = 8,
    // A plant's contract sum or side balance would be past its limit.
    SumPastLimit = 9,
    // The plant is not metered, not issued or not closed, or nothing was metered.
    NotReady = 10,
    // A slice has not the length that is asked for.
    SliceLength = 11,
}

impl Refusal {
    pub fn number(self) -> u8
        ensures { result ≡ numbered self }
    {
        self as u8
    }
}

// The number, and what it means.
impl fmt::Display for Refusal {
    fn fmt<W: fmt::Write>(&self, f: &mut fmt::Formatter<W>) -> fmt::Result {
        let meaning = match self {
            Refusal::PastLimit => "a figure is outside its limits, or nothing is transferred",
            Refusal::NotEnrolled => "the plant is not enrolled",
            Refusal::NoContract => "the contract is not in the book",
            Refusal::AlreadyThere => {
                "the plant or the contract number is there already, or the plant is issued already"
            }
            Refusal::Closed => "a plant concerned is closed",
            Refusal::NotPermitted => {
                "the class may not hold the rank or may not transfer, or the giver is the receiver"
            }
            Refusal::TooMuch => {
                "the transfer is above the contract's energy, or the commissioning above the metered energy"
            }
            Refusal::Full => "256 contracts stand",
            Refusal::SumPastLimit => "a contract sum or a side balance would be past its limit",
            Refusal::NotReady => {
                "a plant is not yet metered, issued or closed, or no energy was metered"
            }
            Refusal::SliceLength => "a slice has not the length that is asked for",
        };
        write!(f, "{}: {meaning}", self.number())
    }
}

// A number that names no class is a figure outside its limits, and so is one that names no rank.
impl From<UnknownClass> for Refusal {
    ghost use Rattle.book.specs.declared.refusal.Refusal.TheVariants.{PastLimit};

    ghost from_gives = { λ _ why. why ≡ PastLimit };

    fn from(_unknown: UnknownClass) -> Refusal {
        Refusal::PastLimit
    }
}

impl From<UnknownRank> for Refusal {
    ghost use Rattle.book.specs.declared.refusal.Refusal.TheVariants.{PastLimit};

    ghost from_gives = { λ _ why. why ≡ PastLimit };

    fn from(_unknown: UnknownRank) -> Refusal {
        Refusal::PastLimit
    }
}
