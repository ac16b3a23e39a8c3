// Each refusal by its number.
use crate::setup::{kwh, micro, number, shut, two_plants, with_contract};
use book::Book;
use sharing::EqualRatio;
use std::test::Fail;
use units::{Energy, Fen, Grains};

#[test]
fn plants_and_months_outside_their_limits(rt: HostRuntime) -> Result<(), Fail> {
    let mut book = Book::new(rt.alloc(), EqualRatio)?;
    assert_eq!(rt; number(book.open(0, micro(0), EqualRatio)), 1);
    assert_eq!(rt; number(book.open(13, micro(0), EqualRatio)), 1);
    assert_eq!(rt; number(book.open(1, micro(1_000_001), EqualRatio)), 1);
    assert_eq!(rt; number(book.enrol(0, 1, micro(0))), 1);
    assert_eq!(rt; number(book.enrol(25, 1, micro(0))), 1);
    assert_eq!(rt; number(book.enrol(1, 0, micro(0))), 1);
    assert_eq!(rt; number(book.enrol(1, 6, micro(0))), 1);
    assert_eq!(rt; number(book.enrol(1, 1, micro(1_000_001))), 1);
    assert_eq!(rt; number(book.issue(0)), 1);
    assert_eq!(rt; number(book.close(25)), 1);
    assert_eq!(rt; number(book.settle(25, &mut [], &mut [])), 1);
    assert_eq!(rt; number(book.turn(micro(1_000_001))), 1);
    Ok(())
}

#[test]
fn contracts_outside_their_limits(rt: HostRuntime) -> Result<(), Fail> {
    let mut book = with_contract(rt)?;
    assert_eq!(rt; number(book.enter(0, 1, 6, kwh(1), micro(0))), 1);
    assert_eq!(rt; number(book.enter(1, 25, 6, kwh(1), micro(0))), 1);
    assert_eq!(rt; number(book.enter(1, 1, 0, kwh(1), micro(0))), 1);
    assert_eq!(rt; number(book.enter(1, 1, 8, kwh(1), micro(0))), 1);
    assert_eq!(rt;
        number(book.enter(1, 1, 6, kwh(3_000_000_001), micro(0))),
        1
    );
    assert_eq!(rt; number(book.enter(1, 1, 6, kwh(1), micro(1_000_001))), 1);
    assert_eq!(rt; number(book.amend(0, kwh(1))), 1);
    assert_eq!(rt; number(book.amend(7, kwh(3_000_000_001))), 1);
    assert_eq!(rt; number(book.transfer(8, 7, 2, kwh(0), micro(0))), 1);
    assert_eq!(rt; number(book.transfer(8, 7, 2, kwh(1), micro(1_000_001))), 1);
    assert_eq!(rt; number(book.meter(1, kwh(3_000_000_001), kwh(0))), 1);
    assert_eq!(rt; number(book.compensate(1, Fen::from_count(-1))), 1);
    assert_eq!(rt; number(book.compensate(1, Fen::from_count(100_000_001))), 1);
    assert_eq!(rt; book.contract_count(1), 1);
    Ok(())
}

#[test]
fn plants_not_enrolled(rt: HostRuntime) -> Result<(), Fail> {
    let mut book = with_contract(rt)?;
    assert_eq!(rt; number(book.enter(8, 3, 6, kwh(1), micro(0))), 2);
    assert_eq!(rt; number(book.transfer(8, 7, 3, kwh(1), micro(0))), 2);
    assert_eq!(rt; number(book.meter(3, kwh(0), kwh(0))), 2);
    assert_eq!(rt; number(book.compensate(3, Fen::from_count(0))), 2);
    assert_eq!(rt; number(book.issue(3)), 2);
    assert_eq!(rt; number(book.close(3)), 2);
    assert_eq!(rt; number(book.settle(3, &mut [], &mut [])), 2);
    Ok(())
}

#[test]
fn no_contract_and_already_there(rt: HostRuntime) -> Result<(), Fail> {
    let mut book = with_contract(rt)?;
    assert_eq!(rt; number(book.amend(8, kwh(1))), 3);
    assert_eq!(rt; number(book.transfer(9, 8, 2, kwh(1), micro(0))), 3);
    assert_eq!(rt; number(book.enrol(1, 2, micro(0))), 4);
    assert_eq!(rt; number(book.enter(7, 2, 6, kwh(1), micro(0))), 4);
    assert_eq!(rt; number(book.transfer(7, 7, 2, kwh(1), micro(0))), 4);
    book.meter(1, kwh(0), kwh(0))?;
    book.issue(1)?;
    assert_eq!(rt; number(book.issue(1)), 4);
    Ok(())
}

#[test]
fn closed_plants(rt: HostRuntime) -> Result<(), Fail> {
    let mut book = with_contract(rt)?;
    book.enter(8, 2, 6, kwh(5), micro(0))?;
    shut(&mut book, 1)?;
    assert_eq!(rt; number(book.enter(9, 1, 6, kwh(1), micro(0))), 5);
    assert_eq!(rt; number(book.amend(7, kwh(1))), 5);
    assert_eq!(rt; number(book.transfer(9, 7, 2, kwh(1), micro(0))), 5);
    assert_eq!(rt; number(book.transfer(9, 8, 1, kwh(1), micro(0))), 5);
    assert_eq!(rt; number(book.meter(1, kwh(0), kwh(0))), 5);
    assert_eq!(rt; number(book.compensate(2, Fen::from_count(0))), 5);
    assert_eq!(rt; number(book.close(1)), 5);
    assert_eq!(rt; number(book.issue(1)), 4);
    Ok(())
}

#[test]
fn not_permitted_and_too_much(rt: HostRuntime) -> Result<(), Fail> {
    let mut book = with_contract(rt)?;
    book.enrol(3, 2, micro(0))?;
    book.enrol(4, 4, micro(0))?;
    book.enter(8, 1, 1, kwh(5), micro(0))?;
    book.enter(9, 4, 6, kwh(5), micro(0))?;
    assert_eq!(rt; number(book.enter(10, 3, 1, kwh(1), micro(0))), 6);
    assert_eq!(rt; number(book.enter(10, 1, 3, kwh(1), micro(0))), 6);
    assert_eq!(rt; number(book.transfer(10, 7, 1, kwh(1), micro(0))), 6);
    assert_eq!(rt; number(book.transfer(10, 7, 4, kwh(1), micro(0))), 6);
    assert_eq!(rt; number(book.transfer(10, 9, 1, kwh(1), micro(0))), 6);
    assert_eq!(rt; number(book.transfer(10, 8, 3, kwh(1), micro(0))), 6);
    assert_eq!(rt; number(book.transfer(10, 7, 2, kwh(61), micro(0))), 7);
    assert_eq!(rt; number(book.meter(1, kwh(5), kwh(6))), 7);
    Ok(())
}

#[test]
fn not_ready(rt: HostRuntime) -> Result<(), Fail> {
    let mut book = two_plants(rt)?;
    book.meter(1, kwh(1), kwh(0))?;
    assert_eq!(rt; number(book.compensate(1, Fen::from_count(0))), 10);
    book.meter(1, kwh(0), kwh(0))?;
    assert_eq!(rt; number(book.issue(2)), 10);
    assert_eq!(rt; number(book.close(1)), 10);
    assert_eq!(rt; number(book.settle(2, &mut [], &mut [])), 10);
    book.meter(2, kwh(0), kwh(0))?;
    assert_eq!(rt; number(book.compensate(1, Fen::from_count(0))), 10);
    assert_eq!(rt; number(book.turn(micro(0))), 10);
    Ok(())
}

#[test]
fn slices_of_another_length(rt: HostRuntime) -> Result<(), Fail> {
    let mut book = with_contract(rt)?;
    book.meter(1, kwh(60), kwh(0))?;
    let mut energies = [kwh(9); 2];
    let mut amounts = [Grains::from_count(9)];
    assert_eq!(rt; number(book.settle(1, &mut energies, &mut amounts)), 11);
    assert_eq!(rt; number(book.settle(1, &mut [], &mut amounts)), 11);
    assert_eq!(rt; number(book.settle(1, &mut [kwh(9)], &mut [])), 11);
    assert_eq!(rt; energies[0].kwh(), 9);
    assert_eq!(rt; amounts[0].count(), 9);
    assert_eq!(rt; number(book.settle(1, &mut [kwh(9)], &mut amounts)), 0);
    assert_eq!(rt; amounts[0].count(), 1_500_000_000);
    Ok(())
}
