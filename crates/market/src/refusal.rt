ghost use Rattle.std.specs.Prelude.{◌≡◌};
ghost use Rattle.market.specs.Refusals.{numbered};

// Why a question is declined, with the number by which the refusal is known in every document and program.
#[derive(Clone, Copy, PartialEq, Eq, Debug)]
pub enum Refusal {
    // A figure is outside its limits.
    PastLimit = 1,
    // The plant's class may not hold a contract's rank.
    NotHeld = 6,
    // More commissioning energy than metered energy.
    AboveMeter = 7,
    // More than 256 contracts.
    TooManyContracts = 8,
    // The contracts' energies add up to more than an energy may be.
    ContractSum = 9,
    // A slice has not the length that is asked for.
    SliceLength = 11,
}

impl Refusal {
    pub fn number(self) -> u8
        ensures { result ≡ numbered self }
    {
        self as u8
    }
}
