// The figures of one plant's month, and what its settlement answers.
ghost use Rattle.std.specs.Prelude.{◌≡◌};

use crate::kinds::{Class, Rank, Season};
use units::{Energy, Grains, Hundredths, Price};

#[derive(Clone, Copy, PartialEq, Eq, Debug)]
pub struct Contract {
    pub rank: Rank,
    pub energy: Energy,
    pub price: Price,
}

// A contract of no energy: what an `ArrayVec` holds in its unused places. Its rank is the first, so that all its bytes are 0 and
// the places are cleared at once.
impl Default for Contract {
    ghost is_default = { λ c. c.energy.kwh ≡ 0 };

    fn default() -> Contract {
        Contract {
            rank: Rank::InterProvincePriority,
            energy: Energy::from_kwh(0),
            price: Price::from_micro_yuan(0),
        }
    }
}

#[derive(Clone, Copy, PartialEq, Eq, Debug)]
pub struct PlantFigures {
    pub class: Class,
    pub season: Season,
    // The month's price of residential energy.
    pub residential: Price,
    // The plant's own price.
    pub approved: Price,
    pub metered: Energy,
    // How much of the metered energy comes from commissioning.
    pub commissioning: Energy,
    // What fees and compensations have brought so far.
    pub side: Grains,
}

#[derive(Clone, Copy, PartialEq, Eq, Debug)]
pub struct Settlement {
    // The commissioning energy that was settled.
    pub commissioning: Energy,
    // What is left of the metered energy when every rank is full.
    pub over_generation: Energy,
    // By how much the metered energy passes the contracts, and by how much it falls short of them.
    pub over_deviation: Energy,
    pub shortfall: Energy,
    // The part of the deviation that is assessed.
    pub assessed: Hundredths,
    pub net: Grains,
}
