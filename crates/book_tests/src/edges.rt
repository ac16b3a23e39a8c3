// Calls at the limits.
use crate::setup::{kwh, micro, number, shut, two_plants, with_contract};
use book::Book;
use sharing::EqualRatio;
use std::test::Fail;
use units::Fen;

#[test]
fn limits_are_inclusive(rt: HostRuntime) -> Result<(), Fail> {
    let mut book = Book::new(rt.alloc(), EqualRatio)?;
    book.open(12, micro(1_000_000), EqualRatio)?;
    book.enrol(24, 5, micro(1_000_000))?;
    book.enter(4_294_967_295, 24, 7, kwh(3_000_000_000), micro(1_000_000))?;
    book.enter(1, 24, 7, kwh(0), micro(0))?;
    assert_eq!(rt; number(book.enter(2, 24, 7, kwh(1), micro(0))), 9);
    book.meter(24, kwh(3_000_000_000), kwh(3_000_000_000))?;
    book.compensate(24, Fen::from_count(100_000_000))?;
    assert_eq!(rt; book.issue(24)?.count(), 300_000_000_000);
    book.close(24)?;
    book.turn(micro(1_000_000))?;
    Ok(())
}

#[test]
fn amend_up_to_the_sum(rt: HostRuntime) -> Result<(), Fail> {
    let mut book = with_contract(rt)?;
    book.enter(8, 1, 7, kwh(2_999_999_940), micro(0))?;
    book.amend(7, kwh(60))?;
    book.amend(8, kwh(2_999_999_940))?;
    assert_eq!(rt; number(book.amend(7, kwh(61))), 9);
    book.amend(8, kwh(0))?;
    book.amend(7, kwh(3_000_000_000))?;
    assert_eq!(rt; number(book.amend(8, kwh(1))), 9);
    book.amend(7, kwh(0))?;
    assert_eq!(rt; book.contract_count(1), 2);
    Ok(())
}

#[test]
fn room_for_256_contracts(rt: HostRuntime) -> Result<(), Fail> {
    let mut book = two_plants(rt)?;
    book.enter(1000, 2, 6, kwh(3_000_000_000), micro(0))?;
    for n in 1..256 {
        book.enter(n, 1, 6, kwh(1), micro(0))?;
    }
    assert_eq!(rt; book.contract_count(1), 255);
    assert_eq!(rt; number(book.enter(256, 1, 6, kwh(1), micro(0))), 8);
    assert_eq!(rt; number(book.enter(255, 1, 6, kwh(1), micro(0))), 4);
    assert_eq!(rt; number(book.enter(256, 1, 3, kwh(1), micro(0))), 6);
    assert_eq!(rt; number(book.enter(256, 2, 6, kwh(1), micro(0))), 8);
    assert_eq!(rt; number(book.transfer(256, 1, 2, kwh(2), micro(0))), 7);
    assert_eq!(rt; number(book.transfer(256, 1, 2, kwh(1), micro(0))), 8);
    assert_eq!(rt; book.contract_count(2), 1);
    Ok(())
}

#[test]
fn a_late_plant_bars_the_turn(rt: HostRuntime) -> Result<(), Fail> {
    let mut book = two_plants(rt)?;
    shut(&mut book, 1)?;
    assert_eq!(rt; number(book.turn(micro(0))), 10);
    shut(&mut book, 2)?;
    book.enrol(3, 1, micro(0))?;
    assert_eq!(rt; number(book.turn(micro(0))), 10);
    shut(&mut book, 3)?;
    assert_eq!(rt; number(book.turn(micro(0))), 0);
    Ok(())
}

#[test]
fn readings(rt: HostRuntime) -> Result<(), Fail> {
    let mut book = two_plants(rt)?;
    assert!(rt; book.reading(1).is_none());
    book.meter(1, kwh(8), kwh(3))?;
    book.meter(1, kwh(5), kwh(5))?;
    assert_eq!(rt; number(book.meter(1, kwh(1), kwh(2))), 7);
    let reading = book.reading(1).ok_or("not metered")?;
    assert_eq!(rt; reading.metered.kwh(), 5);
    assert_eq!(rt; reading.commissioning.kwh(), 5);
    assert!(rt; book.reading(2).is_none());
    assert!(rt; book.reading(0).is_none());
    assert!(rt; book.reading(25).is_none());
    Ok(())
}

#[test]
fn open_begins_anew(rt: HostRuntime) -> Result<(), Fail> {
    let mut book = with_contract(rt)?;
    assert_eq!(rt; number(book.open(13, micro(0), EqualRatio)), 1);
    assert_eq!(rt; book.contract_count(1), 1);
    book.open(1, micro(0), EqualRatio)?;
    assert_eq!(rt; book.contract_count(1), 0);
    assert_eq!(rt; number(book.meter(1, kwh(0), kwh(0))), 2);
    Ok(())
}
