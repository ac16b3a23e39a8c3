ghost use Rattle.std.specs.Prelude.{◌≡◌, ◌*◌, pos, nat_le, Some, decimal};
ghost use Rattle.units.specs.Fits.{hundredths_if, grains_if};

use crate::money::Grains;
use crate::price::Price;
use std::fmt;

// An energy in whole kWh.
#[derive(Clone, Copy, PartialEq, Eq, PartialOrd, Ord, Debug)]
pub struct Energy {
    kwh: u64,
}

// An energy in hundredths of a kWh.
#[derive(Clone, Copy, PartialEq, Eq, PartialOrd, Ord, Debug)]
pub struct Hundredths {
    count: u64,
}

const MOST_KWH: u64 = 3_000_000_000;

impl Energy {
    pub fn from_kwh(kwh: u64) -> Energy
        ensures { result.kwh ≡ kwh }
    {
        Energy { kwh }
    }

    pub fn kwh(self) -> u64
        ensures { result ≡ self.kwh }
    {
        self.kwh
    }

    // An energy is at most 3,000,000,000 kWh; one above can be written down, to be declined.
    pub fn within_limit(self) -> bool
        ensures { result ≡ nat_le self.kwh 3000000000 }
    {
        self.kwh <= MOST_KWH
    }

    // The same energy in hundredths, where they fit.
    pub fn hundredths(self) -> Option<Hundredths>
        ensures { result ≡ hundredths_if (self.kwh * 100) }
    {
        Hundredths::from_wide(u128::from(self.kwh) * 100)
    }

    // What the energy costs at a price, where it fits.
    pub fn worth(self, price: Price) -> Option<Grains>
        ensures { result ≡ grains_if (pos (self.kwh * 100 * price.micro)) }
    {
        Grains::from_product(u128::from(self.kwh) * 100, price.micro_yuan())
    }
}

// The kWh, without the unit.
impl fmt::Display for Energy {
    ghost output = { λ energy. Some (decimal energy.kwh) };

    fn fmt<W: fmt::Write>(&self, f: &mut fmt::Formatter<W>) -> fmt::Result {
        let kwh = self.kwh;
        fmt::Display::fmt(&kwh, f)
    }
}

impl Hundredths {
    pub fn from_count(count: u64) -> Hundredths
        ensures { result.count ≡ count }
    {
        Hundredths { count }
    }

    pub fn count(self) -> u64
        ensures { result ≡ self.count }
    {
        self.count
    }

    fn from_wide(count: u128) -> Option<Hundredths>
        ensures { result ≡ hundredths_if count }
    {
        u64::try_from(count).ok().map(Hundredths::from_count)
    }

    // Hundredths at a price give grains, where they fit.
    pub fn worth(self, price: Price) -> Option<Grains>
        ensures { result ≡ grains_if (pos (self.count * price.micro)) }
    {
        Grains::from_product(u128::from(self.count), price.micro_yuan())
    }
}

// The hundredths of a kWh, without the unit.
impl fmt::Display for Hundredths {
    ghost output = { λ energy. Some (decimal energy.count) };

    fn fmt<W: fmt::Write>(&self, f: &mut fmt::Formatter<W>) -> fmt::Result {
        let hundredths = self.count;
        fmt::Display::fmt(&hundredths, f)
    }
}
