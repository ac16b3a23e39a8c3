// The classes of plants, the ranks of energy and the seasons.
ghost use Rattle.std.specs.Prelude.{◌≡◌, ◌++◌, Some, codes, decimal};
ghost use Rattle.market.specs.Kinds.{class_number, class_from, rank_number, rank_from, may_hold, may_transfer, season_of};

use std::error::Error;
use std::fmt;

#[derive(Clone, Copy, PartialEq, Eq, Debug)]
pub enum Class {
    Hydro,
    Coal,
    Gas,
    // Wind, solar and biomass.
    Renewable,
    // Solar plants that are run for the relief of poverty.
    PovertyRelief,
}

// The ranks in the order in which metered energy fills them.
#[derive(Clone, Copy, PartialEq, Eq, Debug)]
pub enum Rank {
    InterProvincePriority,
    InterProvinceMarket,
    // Energy from a plant's commissioning, which comes from the meter and is never contracted.
    Commissioning,
    Retained,
    Aluminium,
    InProvincePriority,
    InProvinceMarket,
}

#[derive(Clone, Copy, PartialEq, Eq, Debug)]
pub enum Season {
    Wet,
    Dry,
    Level,
}

// A number that names no class.
#[derive(Clone, Copy, PartialEq, Eq, Debug)]
pub struct UnknownClass(pub u8);

// A number that names no rank.
#[derive(Clone, Copy, PartialEq, Eq, Debug)]
pub struct UnknownRank(pub u8);

impl TryFrom<u8> for Class {
    type Error = UnknownClass;

    ghost try_from_gives = { λ number answer. answer ≡ class_from number };

    fn try_from(number: u8) -> Result<Class, UnknownClass> {
        match number {
            1 => Ok(Class::Hydro),
            2 => Ok(Class::Coal),
            3 => Ok(Class::Gas),
            4 => Ok(Class::Renewable),
            5 => Ok(Class::PovertyRelief),
            _ => Err(UnknownClass(number)),
        }
    }
}

impl From<Class> for u8 {
    ghost from_gives = { λ class number. number ≡ class_number class };

    fn from(class: Class) -> u8 {
        match class {
            Class::Hydro => 1,
            Class::Coal => 2,
            Class::Gas => 3,
            Class::Renewable => 4,
            Class::PovertyRelief => 5,
        }
    }
}

impl fmt::Display for UnknownClass {
    ghost output = { λ unknown. Some (codes "no class has the number " ++ decimal unknown.0) };

    fn fmt<W: fmt::Write>(&self, f: &mut fmt::Formatter<W>) -> fmt::Result {
        write!(f, "no class has the number {}", self.0)
    }
}

impl Error for UnknownClass {}

impl Class {
    // Whether a plant of the class may hold contracts of a rank.
    pub fn may_hold(self, rank: Rank) -> bool
        ensures { result ≡ may_hold self rank }
    {
        match rank {
            Rank::InProvincePriority | Rank::InProvinceMarket => true,
            Rank::Commissioning => false,
            Rank::InterProvincePriority
            | Rank::InterProvinceMarket
            | Rank::Retained
            | Rank::Aluminium => match self {
                Class::Hydro => true,
                Class::Coal | Class::Gas | Class::Renewable | Class::PovertyRelief => false,
            },
        }
    }

    // Whether a plant of the class may give or receive energy by a transfer.
    pub fn may_transfer(self) -> bool
        ensures { result ≡ may_transfer self }
    {
        match self {
            Class::Hydro | Class::Coal | Class::Gas => true,
            Class::Renewable | Class::PovertyRelief => false,
        }
    }
}

impl TryFrom<u8> for Rank {
    type Error = UnknownRank;

    ghost try_from_gives = { λ number answer. answer ≡ rank_from number };

    fn try_from(number: u8) -> Result<Rank, UnknownRank> {
        match number {
            1 => Ok(Rank::InterProvincePriority),
            2 => Ok(Rank::InterProvinceMarket),
            3 => Ok(Rank::Commissioning),
            4 => Ok(Rank::Retained),
            5 => Ok(Rank::Aluminium),
            6 => Ok(Rank::InProvincePriority),
            7 => Ok(Rank::InProvinceMarket),
            _ => Err(UnknownRank(number)),
        }
    }
}

impl From<Rank> for u8 {
    ghost from_gives = { λ rank number. number ≡ rank_number rank };

    fn from(rank: Rank) -> u8 {
        match rank {
            Rank::InterProvincePriority => 1,
            Rank::InterProvinceMarket => 2,
            Rank::Commissioning => 3,
            Rank::Retained => 4,
            Rank::Aluminium => 5,
            Rank::InProvincePriority => 6,
            Rank::InProvinceMarket => 7,
        }
    }
}

impl fmt::Display for UnknownRank {
    ghost output = { λ unknown. Some (codes "no rank has the number " ++ decimal unknown.0) };

    fn fmt<W: fmt::Write>(&self, f: &mut fmt::Formatter<W>) -> fmt::Result {
        write!(f, "no rank has the number {}", self.0)
    }
}

impl Error for UnknownRank {}

impl Season {
    // The season of a month, from 1 to 12.
    // Kept: a month has a season and is none, so this is no TryFrom.
    pub fn of_month(month: u8) -> Option<Season>
        ensures { result ≡ season_of month }
    {
        match month {
            6..=10 => Some(Season::Wet),
            1..=4 | 12 => Some(Season::Dry),
            5 | 11 => Some(Season::Level),
            _ => None,
        }
    }
}
