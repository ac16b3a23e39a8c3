// Figures for the tests.
use market::{Class, Contract, PlantFigures, Rank, Season};
use units::{Energy, Grains, Price};

pub fn kwh(n: u64) -> Energy {
    Energy::from_kwh(n)
}

pub fn micro(n: u32) -> Price {
    Price::from_micro_yuan(n)
}

pub fn contract(rank: Rank, energy: u64) -> Contract {
    Contract {
        rank,
        energy: kwh(energy),
        price: micro(250_000),
    }
}

pub fn plant(class: Class, season: Season, metered: u64, commissioning: u64) -> PlantFigures {
    PlantFigures {
        class,
        season,
        residential: micro(400_000),
        approved: micro(300_000),
        metered: kwh(metered),
        commissioning: kwh(commissioning),
        side: Grains::from_count(0),
    }
}
