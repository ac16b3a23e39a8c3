ghost use Rattle.std.specs.Prelude.{◌≡◌, ◌*◌, ◌^◌, ◌≤◌, pos, ◌+ℤ◌, ◌-ℤ◌, ◌*ℤ◌, neg_ℤ, Some};
ghost use Rattle.std.specs.Fmt.{signed_decimal};
ghost use Rattle.units.specs.Fits.{grains_if};
ghost use Rattle.units.specs.Limits.{compensation, side_balance};

use std::fmt;

// Money in grains of 0.00000001 yuan, signed.
#[derive(Clone, Copy, PartialEq, Eq, PartialOrd, Ord, Debug)]
pub struct Grains {
    count: i64,
}

// Money in fen, signed. A fen is 1,000,000 grains.
#[derive(Clone, Copy, PartialEq, Eq, PartialOrd, Ord, Debug)]
pub struct Fen {
    count: i64,
}

pub(crate) const GRAINS_IN_FEN: i64 = 1_000_000;

const MOST_SIDE_BALANCE: i64 = 300_000_000_000_000_000;

const MOST_COMPENSATION: i64 = 100_000_000;

impl Grains {
    pub fn from_count(count: i64) -> Grains
        ensures { result.count ≡ count }
    {
        Grains { count }
    }

    pub fn count(self) -> i64
        ensures { result ≡ self.count }
    {
        self.count
    }

    // A side balance, of fees and compensations, is at most 3,000,000,000 yuan either way.
    pub fn within_side_limit(self) -> bool
        ensures { result ≡ side_balance self.count }
    {
        (-MOST_SIDE_BALANCE..=MOST_SIDE_BALANCE).contains(&self.count)
    }

    pub fn checked_add(self, other: Grains) -> Option<Grains>
        ensures { result ≡ grains_if (self.count +ℤ other.count) }
    {
        Grains::from_signed(i128::from(self.count) + i128::from(other.count))
    }

    pub fn checked_sub(self, other: Grains) -> Option<Grains>
        ensures { result ≡ grains_if (self.count -ℤ other.count) }
    {
        Grains::from_signed(i128::from(self.count) - i128::from(other.count))
    }

    pub fn checked_neg(self) -> Option<Grains>
        ensures { result ≡ grains_if (neg_ℤ self.count) }
    {
        Grains::from_signed(-i128::from(self.count))
    }

    pub(crate) fn from_signed(count: i128) -> Option<Grains>
        ensures { result ≡ grains_if count }
    {
        i64::try_from(count).ok().map(Grains::from_count)
    }

    // Hundredths of a kWh times micro-yuan for each kWh, where they fit.
    pub(crate) fn from_product(hundredths: u128, micro: u32) -> Option<Grains>
        requires { hundredths ≤ 2 ^ 71 }
        ensures { result ≡ grains_if (pos (hundredths * micro)) }
    {
        i64::try_from(hundredths * u128::from(micro))
            .ok()
            .map(Grains::from_count)
    }
}

// The grains with their sign, without the unit.
impl fmt::Display for Grains {
    ghost output = { λ money. Some (signed_decimal money.count) };

    fn fmt<W: fmt::Write>(&self, f: &mut fmt::Formatter<W>) -> fmt::Result {
        let grains = self.count;
        fmt::Display::fmt(&grains, f)
    }
}

impl Fen {
    pub fn from_count(count: i64) -> Fen
        ensures { result.count ≡ count }
    {
        Fen { count }
    }

    pub fn count(self) -> i64
        ensures { result ≡ self.count }
    {
        self.count
    }

    // A compensation is at most a million yuan, and not negative.
    pub fn within_compensation_limit(self) -> bool
        ensures { result ≡ compensation self.count }
    {
        (0..=MOST_COMPENSATION).contains(&self.count)
    }

    // The same money in grains, where they fit.
    pub fn grains(self) -> Option<Grains>
        ensures { result ≡ grains_if (self.count *ℤ pos 1000000) }
    {
        Grains::from_signed(i128::from(self.count) * i128::from(GRAINS_IN_FEN))
    }
}

// The fen with their sign, without the unit.
impl fmt::Display for Fen {
    ghost output = { λ money. Some (signed_decimal money.count) };

    fn fmt<W: fmt::Write>(&self, f: &mut fmt::Formatter<W>) -> fmt::Result {
        let fen = self.count;
        fmt::Display::fmt(&fen, f)
    }
}
