ghost use Rattle.std.specs.Prelude.{◌≡◌, nat_le, Some, decimal};

use std::fmt;

// A price in micro-yuan for each kWh.
#[derive(Clone, Copy, PartialEq, Eq, PartialOrd, Ord, Debug)]
pub struct Price {
    micro: u32,
}

const MOST_MICRO_YUAN: u32 = 1_000_000;

impl Price {
    pub fn from_micro_yuan(micro: u32) -> Price
        ensures { result.micro ≡ micro }
    {
        Price { micro }
    }

    pub fn micro_yuan(self) -> u32
        ensures { result ≡ self.micro }
    {
        self.micro
    }

    // A price is at most one yuan for each kWh; one above can be written down, to be declined.
    pub fn within_limit(self) -> bool
        ensures { result ≡ nat_le self.micro 1000000 }
    {
        self.micro <= MOST_MICRO_YUAN
    }
}

// The micro-yuan for each kWh, without the unit.
impl fmt::Display for Price {
    ghost output = { λ price. Some (decimal price.micro) };

    fn fmt<W: fmt::Write>(&self, f: &mut fmt::Formatter<W>) -> fmt::Result {
        let micro = self.micro;
        fmt::Display::fmt(&micro, f)
    }
}
