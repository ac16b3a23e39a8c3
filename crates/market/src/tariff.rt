// The prices of a plant's month, all in one place.
ghost use Rattle.std.specs.Prelude.{◌≡◌};
ghost use Rattle.market.specs.Prices.{by_season, micro, tariff_of, conventional_tariff, renewable_tariff, poverty_tariff, paid_at};

use crate::kinds::{Class, Season};
use units::Price;

#[derive(Clone, Copy, PartialEq, Eq, Debug)]
pub struct Tariff {
    // Of energy that no contract takes up.
    pub over_generation: Price,
    // Of an assessed deviation where more was generated than contracted, and where less was.
    pub assessed_over: Price,
    pub assessed_short: Price,
    // More for each kWh that is missing in the rank of the aluminium works.
    pub missing_aluminium: Price,
    pub commissioning: Price,
    // Of every contract; nothing where each is paid at its own price.
    pub contracts: Option<Price>,
}

impl Tariff {
    // The prices of a plant: `residential` is the month's price of residential energy, `approved` the plant's own.
    pub fn of(class: Class, season: Season, residential: Price, approved: Price) -> Tariff
        ensures { result ≡ tariff_of class season residential approved }
    {
        match class {
            Class::Hydro => conventional(season, approved, seasonal(season, 0, 60_000, 0)),
            Class::Coal | Class::Gas => conventional(season, approved, Price::from_micro_yuan(0)),
            Class::Renewable => renewable(season, residential, approved),
            Class::PovertyRelief => poverty_relief(approved),
        }
    }

    // What a contract is paid at.
    pub fn contract_price(self, own: Price) -> Price
        ensures { result ≡ paid_at self own }
    {
        self.contracts.unwrap_or(own)
    }
}

fn by_season(season: Season, wet: Price, dry: Price, level: Price) -> Price
    ensures { result ≡ by_season season wet dry level }
{
    match season {
        Season::Wet => wet,
        Season::Dry => dry,
        Season::Level => level,
    }
}

fn seasonal(season: Season, wet: u32, dry: u32, level: u32) -> Price
    ensures { result ≡ by_season season (micro wet) (micro dry) (micro level) }
{
    by_season(
        season,
        Price::from_micro_yuan(wet),
        Price::from_micro_yuan(dry),
        Price::from_micro_yuan(level),
    )
}

// Of hydro, coal and gas: each contract is paid at its own price.
fn conventional(season: Season, approved: Price, missing_aluminium: Price) -> Tariff
    ensures { result ≡ conventional_tariff season approved missing_aluminium }
{
    Tariff {
        over_generation: seasonal(season, 0, 228_597, 183_612),
        assessed_over: seasonal(season, 25_372, 0, 0),
        assessed_short: seasonal(season, 126_859, 207_815, 166_920),
        missing_aluminium,
        commissioning: approved,
        contracts: None,
    }
}

// Of wind, solar and biomass.
fn renewable(season: Season, residential: Price, approved: Price) -> Tariff
    ensures { result ≡ renewable_tariff season residential approved }
{
    let paid = by_season(season, residential, approved, approved);
    Tariff {
        over_generation: by_season(
            season,
            residential,
            Price::from_micro_yuan(228_597),
            approved,
        ),
        assessed_over: seasonal(season, 25_372, 0, 25_372),
        assessed_short: Price::from_micro_yuan(25_372),
        missing_aluminium: Price::from_micro_yuan(0),
        commissioning: paid,
        contracts: Some(paid),
    }
}

// Of solar for the relief of poverty: the approved price all year.
fn poverty_relief(approved: Price) -> Tariff
    ensures { result ≡ poverty_tariff approved }
{
    Tariff {
        over_generation: approved,
        assessed_over: Price::from_micro_yuan(25_372),
        assessed_short: Price::from_micro_yuan(25_372),
        missing_aluminium: Price::from_micro_yuan(0),
        commissioning: approved,
        contracts: Some(approved),
    }
}
