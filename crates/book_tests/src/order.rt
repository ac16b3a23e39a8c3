// Which refusal is answered where two conditions hold.
use crate::setup::{kwh, micro, number, shut, with_contract};
use std::test::Fail;
use units::{Fen, Grains};

#[test]
fn enter_and_amend(rt: HostRuntime) -> Result<(), Fail> {
    let mut book = with_contract(rt)?;
    book.enter(8, 1, 6, kwh(1), micro(0))?;
    book.enter(5, 2, 6, kwh(1), micro(0))?;
    assert_eq!(rt; number(book.enter(0, 3, 6, kwh(1), micro(0))), 1);
    assert_eq!(rt; number(book.enter(7, 3, 6, kwh(1), micro(0))), 2);
    assert_eq!(rt;
        number(book.enter(9, 2, 3, kwh(3_000_000_000), micro(0))),
        6
    );
    assert_eq!(rt; number(book.amend(99, kwh(3_000_000_001))), 1);
    shut(&mut book, 1)?;
    assert_eq!(rt; number(book.enter(7, 1, 6, kwh(1), micro(0))), 4);
    assert_eq!(rt; number(book.enter(9, 1, 3, kwh(1), micro(0))), 5);
    assert_eq!(rt; number(book.amend(7, kwh(3_000_000_000))), 5);
    Ok(())
}

#[test]
fn transfer(rt: HostRuntime) -> Result<(), Fail> {
    let mut book = with_contract(rt)?;
    book.enter(5, 2, 6, kwh(1), micro(0))?;
    book.enrol(4, 1, micro(0))?;
    book.enter(6, 4, 6, kwh(3_000_000_000), micro(0))?;
    assert_eq!(rt; number(book.transfer(9, 7, 3, kwh(0), micro(0))), 1);
    assert_eq!(rt; number(book.transfer(9, 99, 3, kwh(1), micro(0))), 2);
    assert_eq!(rt; number(book.transfer(7, 99, 2, kwh(1), micro(0))), 3);
    assert_eq!(rt; number(book.transfer(9, 5, 2, kwh(2), micro(0))), 6);
    assert_eq!(rt; number(book.transfer(9, 5, 4, kwh(2), micro(0))), 7);
    assert_eq!(rt; number(book.transfer(9, 5, 4, kwh(1), micro(0))), 9);
    shut(&mut book, 1)?;
    assert_eq!(rt; number(book.transfer(5, 7, 2, kwh(1), micro(0))), 4);
    assert_eq!(rt; number(book.transfer(9, 7, 1, kwh(1), micro(0))), 5);
    Ok(())
}

#[test]
fn meter_and_settle(rt: HostRuntime) -> Result<(), Fail> {
    let mut book = with_contract(rt)?;
    assert_eq!(rt; number(book.meter(3, kwh(3_000_000_001), kwh(0))), 1);
    assert_eq!(rt; number(book.meter(3, kwh(1), kwh(2))), 2);
    assert_eq!(rt; number(book.settle(3, &mut [kwh(0)], &mut [])), 2);
    assert_eq!(rt; number(book.settle(1, &mut [], &mut [])), 10);
    shut(&mut book, 1)?;
    assert_eq!(rt; number(book.meter(1, kwh(1), kwh(2))), 5);
    Ok(())
}

#[test]
fn compensate_enrol_and_turn(rt: HostRuntime) -> Result<(), Fail> {
    let mut book = with_contract(rt)?;
    assert_eq!(rt; number(book.enrol(1, 9, micro(0))), 1);
    assert_eq!(rt; number(book.turn(micro(1_000_001))), 1);
    assert_eq!(rt; number(book.compensate(3, Fen::from_count(-1))), 1);
    assert_eq!(rt; number(book.compensate(1, Fen::from_count(1))), 10);
    shut(&mut book, 1)?;
    assert_eq!(rt; number(book.compensate(3, Fen::from_count(1))), 2);
    assert_eq!(rt; number(book.compensate(1, Fen::from_count(1))), 5);
    Ok(())
}
