// The calls of the month, part by part, and those of the journal. Some of them are declined, and show why.
use book::Call;
use market::{Class, Rank};
use units::{Energy, Fen, Price};

fn kwh(count: u64) -> Energy {
    Energy::from_kwh(count)
}

fn price(micro_yuan: u32) -> Price {
    Price::from_micro_yuan(micro_yuan)
}

fn enrol(plant: u8, class: Class, approved: u32) -> Call {
    Call::Enrol(plant, u8::from(class), price(approved))
}

fn enter(number: u32, plant: u8, rank: Rank, energy: u64, own: u32) -> Call {
    Call::Enter(number, plant, u8::from(rank), kwh(energy), price(own))
}

fn transfer(new: u32, old: u32, receiver: u8, energy: u64, paid: u32) -> Call {
    Call::Transfer(new, old, receiver, kwh(energy), price(paid))
}

fn meter(plant: u8, metered: u64, commissioning: u64) -> Call {
    Call::Meter(plant, kwh(metered), kwh(commissioning))
}

pub fn enrolments() -> [Call; 5] {
    [
        enrol(1, Class::Hydro, 288_000),
        enrol(2, Class::Coal, 401_200),
        enrol(3, Class::Renewable, 421_000),
        enrol(1, Class::Gas, 401_200),
        enrol(25, Class::Hydro, 288_000),
    ]
}

pub fn contracts() -> [Call; 8] {
    [
        enter(101, 1, Rank::InterProvincePriority, 500_000, 270_000),
        enter(102, 1, Rank::InProvinceMarket, 300_000, 231_000),
        enter(103, 1, Rank::InProvinceMarket, 200_001, 224_000),
        enter(201, 2, Rank::InProvinceMarket, 400_000, 390_000),
        enter(301, 3, Rank::InterProvincePriority, 100_000, 421_000),
        enter(301, 3, Rank::InProvincePriority, 100_000, 421_000),
        enter(101, 2, Rank::InProvinceMarket, 1, 390_000),
        enter(401, 4, Rank::InProvinceMarket, 1, 390_000),
    ]
}

pub fn changes() -> [Call; 8] {
    [
        Call::Amend(201, kwh(450_000)),
        Call::Amend(999, kwh(450_000)),
        transfer(202, 102, 2, 50_000, 200_000),
        transfer(203, 102, 2, 0, 200_000),
        transfer(203, 102, 2, 250_001, 200_000),
        transfer(104, 102, 1, 1_000, 200_000),
        Call::Compensate(2, Fen::from_count(100_001)),
        Call::Issue(1),
    ]
}

pub fn readings() -> [Call; 6] {
    [
        meter(1, 900_000, 0),
        meter(2, 520_000, 20_000),
        meter(3, 98_000, 98_001),
        meter(3, 98_000, 0),
        meter(1, 850_001, 0),
        Call::Compensate(2, Fen::from_count(100_001)),
    ]
}

pub fn payments() -> [Call; 7] {
    [
        Call::Close(1),
        Call::Issue(1),
        Call::Issue(2),
        Call::Issue(3),
        Call::Issue(1),
        Call::Amend(103, kwh(190_000)),
        Call::Turn(price(265_000)),
    ]
}

pub fn closing() -> [Call; 5] {
    [
        Call::Close(1),
        Call::Close(2),
        Call::Close(3),
        meter(1, 900_000, 0),
        Call::Turn(price(265_000)),
    ]
}

pub fn next_month() -> [Call; 4] {
    [
        Call::Close(1),
        enter(101, 1, Rank::InterProvincePriority, 500_000, 270_000),
        meter(1, 400_003, 0),
        Call::Issue(1),
    ]
}

pub fn journal() -> [Call; 7] {
    [
        enrol(1, Class::Hydro, 288_000),
        enter(11, 1, Rank::InProvinceMarket, 1, 231_000),
        enter(12, 1, Rank::InProvinceMarket, 1, 231_000),
        Call::Issue(1),
        meter(1, 1, 0),
        Call::Issue(1),
        Call::Close(1),
    ]
}
