ghost use Rattle.std.specs.Prelude.{◌≡◌};
ghost use Rattle.question.specs.declared.fault.Fault.TheVariants.{NoMemory};

use std::alloc::AllocFailed;
use std::fmt;

// Why a line is no question.
#[derive(Clone, Copy, PartialEq, Eq, Debug)]
pub enum Fault {
    // The first word names no rule.
    UnknownRule,
    // No total stands after the rule.
    NoTotal,
    // The total is no whole number below 2^64.
    BadTotal,
    // A claim is no whole number below 2^64; so many claims stand before it.
    BadClaim(usize),
    // There is no memory for the claims.
    NoMemory,
}

impl<T: Drop> From<AllocFailed<T>> for Fault {
    ghost from_gives = { λ _ r. r ≡ NoMemory };

    fn from(_refused: AllocFailed<T>) -> Fault {
        Fault::NoMemory
    }
}

impl fmt::Display for Fault {
    fn fmt<W: fmt::Write>(&self, f: &mut fmt::Formatter<W>) -> fmt::Result {
        match self {
            Fault::UnknownRule => write!(
                f,
                "the first word is no rule: write equal-ratio or in-order, then the total and the claims"
            ),
            Fault::NoTotal => write!(f, "no total stands after the rule"),
            Fault::BadTotal => write!(f, "the total is not a whole number below 2^64"),
            Fault::BadClaim(before) => {
                let place = before.saturating_add(1);
                write!(f, "claim {place} is not a whole number below 2^64")
            }
            Fault::NoMemory => write!(f, "there is no memory for the claims"),
        }
    }
}
