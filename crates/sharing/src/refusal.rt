ghost use Rattle.std.specs.Prelude.{◌≡◌};
ghost use Rattle.sharing.specs.Questions.{numbered};

use std::fmt;

// Why a share is declined, with the number by which the refusal is known in every document and program.
#[derive(Clone, Copy, PartialEq, Eq, Debug)]
pub enum Refusal {
    // Claims and parts differ in length, or are more than 256.
    Lengths = 21,
    // Nothing is claimed of a total above zero.
    NothingClaimed = 22,
    // A claim, or the total times the sum of the claims, is above its limit.
    TooLarge = 23,
}

impl Refusal {
    pub fn number(self) -> u8
        ensures { result ≡ numbered self }
    {
        self as u8
    }
}

// The number, and what it means.
impl fmt::Display for Refusal {
    fn fmt<W: fmt::Write>(&self, f: &mut fmt::Formatter<W>) -> fmt::Result {
        let meaning = match self {
            Refusal::Lengths => "claims and parts differ in length, or are more than 256",
            Refusal::NothingClaimed => "nothing is claimed, and the total is above zero",
            Refusal::TooLarge => {
                "a claim is above 300000000000, or the total times the sum of the claims is above 9000000000000000000"
            }
        };
        write!(f, "{}: {meaning}", self.number())
    }
}
