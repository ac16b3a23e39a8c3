// Whole months.
use crate::setup::{kwh, micro, net, number};
use book::Book;
use sharing::EqualRatio;
use std::test::Fail;
use units::Grains;

// January: one hydro plant with two contracts, short by half.
fn january(rt: HostRuntime) -> Result<Book<EqualRatio>, Fail> {
    let mut book = Book::new(rt.alloc(), EqualRatio)?;
    book.enrol(1, 1, micro(300_000))?;
    book.enter(9, 1, 7, kwh(40), micro(200_000))?;
    book.enter(7, 1, 6, kwh(60), micro(250_000))?;
    book.meter(1, kwh(50), kwh(0))?;
    Ok(book)
}

#[test]
fn short_of_two_contracts(rt: HostRuntime) -> Result<(), Fail> {
    let mut book = january(rt)?;
    let mut energies = [kwh(0); 2];
    let mut amounts = [Grains::from_count(0); 2];
    let settlement = book.settle(1, &mut energies, &mut amounts)?;
    assert_eq!(rt; settlement.over_generation.kwh(), 0);
    assert_eq!(rt; settlement.over_deviation.kwh(), 0);
    assert_eq!(rt; settlement.shortfall.kwh(), 50);
    assert_eq!(rt; settlement.assessed.count(), 4_800);
    assert_eq!(rt; settlement.net.count(), 252_488_000);
    assert_eq!(rt; energies[0].kwh(), 50);
    assert_eq!(rt; energies[1].kwh(), 0);
    assert_eq!(rt; amounts[0].count(), 1_250_000_000);
    assert_eq!(rt; book.issue(1)?.count(), 252);
    Ok(())
}

#[test]
fn a_better_meter_after_issue(rt: HostRuntime) -> Result<(), Fail> {
    let mut book = january(rt)?;
    book.issue(1)?;
    book.meter(1, kwh(51), kwh(0))?;
    book.close(1)?;
    assert_eq!(rt; net(&book, 1)?, 298_269_500);
    book.turn(micro(0))?;
    book.meter(1, kwh(0), kwh(0))?;
    assert_eq!(rt; net(&book, 1)?, 0);
    assert_eq!(rt; book.issue(1)?.count(), 46);
    Ok(())
}

#[test]
fn a_worse_meter_after_issue(rt: HostRuntime) -> Result<(), Fail> {
    let mut book = january(rt)?;
    book.issue(1)?;
    book.meter(1, kwh(49), kwh(0))?;
    assert_eq!(rt; net(&book, 1)?, 206_706_500);
    book.close(1)?;
    book.turn(micro(0))?;
    book.meter(1, kwh(0), kwh(0))?;
    assert_eq!(rt; book.issue(1)?.count(), -46);
    book.close(1)?;
    book.turn(micro(0))?;
    // 706500 grains are carried, and a kWh over is worth 22859700.
    book.meter(1, kwh(1), kwh(0))?;
    assert_eq!(rt; book.issue(1)?.count(), 23);
    Ok(())
}

#[test]
fn a_turn_begins_anew(rt: HostRuntime) -> Result<(), Fail> {
    let mut book = january(rt)?;
    book.issue(1)?;
    book.close(1)?;
    book.turn(micro(0))?;
    assert_eq!(rt; book.contract_count(1), 0);
    assert!(rt; book.reading(1).is_none());
    assert_eq!(rt; number(book.enrol(1, 1, micro(0))), 4);
    assert_eq!(rt; number(book.issue(1)), 10);
    assert_eq!(rt; number(book.amend(7, kwh(1))), 3);
    book.enter(7, 1, 6, kwh(1), micro(0))?;
    Ok(())
}

#[test]
fn from_december_to_may(rt: HostRuntime) -> Result<(), Fail> {
    let mut book = Book::new(rt.alloc(), EqualRatio)?;
    book.open(12, micro(0), EqualRatio)?;
    for _ in 0..5 {
        book.turn(micro(0))?;
    }
    book.enrol(1, 2, micro(0))?;
    book.meter(1, kwh(1), kwh(0))?;
    assert_eq!(rt; net(&book, 1)?, 18_361_200);
    assert_eq!(rt; book.issue(1)?.count(), 18);
    Ok(())
}

#[test]
fn the_residential_price_of_the_turn(rt: HostRuntime) -> Result<(), Fail> {
    let mut book = Book::new(rt.alloc(), EqualRatio)?;
    book.open(5, micro(100_000), EqualRatio)?;
    book.turn(micro(400_000))?;
    book.enrol(1, 4, micro(0))?;
    book.meter(1, kwh(1), kwh(0))?;
    assert_eq!(rt; net(&book, 1)?, 37_462_800);
    Ok(())
}
