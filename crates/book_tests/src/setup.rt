// Books to test on, and short names.
use book::{Book, Refusal};
use sharing::EqualRatio;
use std::test::Fail;
use units::{Energy, Grains, Price};

pub(crate) fn kwh(count: u64) -> Energy {
    Energy::from_kwh(count)
}

pub(crate) fn micro(count: u32) -> Price {
    Price::from_micro_yuan(count)
}

// The number of the refusal, or 0 where the call was accepted.
pub(crate) fn number<T: Drop>(answer: Result<T, Refusal>) -> u8 {
    answer.err().map_or(0, Refusal::number)
}

// A book in January with two hydro plants, 1 and 2.
pub(crate) fn two_plants(rt: HostRuntime) -> Result<Book<EqualRatio>, Fail> {
    let mut book = Book::new(rt.alloc(), EqualRatio)?;
    book.enrol(1, 1, micro(300_000))?;
    book.enrol(2, 1, micro(300_000))?;
    Ok(book)
}

// The same with contract 7 of plant 1: rank 6, 60 kWh at 250000.
pub(crate) fn with_contract(rt: HostRuntime) -> Result<Book<EqualRatio>, Fail> {
    let mut book = two_plants(rt)?;
    book.enter(7, 1, 6, kwh(60), micro(250_000))?;
    Ok(book)
}

// The net in grains of a plant with two contracts or fewer.
pub(crate) fn net(book: &Book<EqualRatio>, plant: u8) -> Result<i64, Refusal> {
    let mut energies = [Energy::from_kwh(0); 2];
    let mut amounts = [Grains::from_count(0); 2];
    let n = book.contract_count(plant);
    let energies = energies.get_mut(..n).ok_or(Refusal::SliceLength)?;
    let amounts = amounts.get_mut(..n).ok_or(Refusal::SliceLength)?;
    Ok(book.settle(plant, energies, amounts)?.net.count())
}

// Meters a plant at nothing, issues it and closes it.
pub(crate) fn shut(book: &mut Book<EqualRatio>, plant: u8) -> Result<(), Refusal> {
    book.meter(plant, kwh(0), kwh(0))?;
    book.issue(plant)?;
    book.close(plant)
}
