// Compensations.
use crate::setup::{kwh, micro, net, number, two_plants};
use book::Book;
use sharing::InOrder;
use std::test::Fail;
use units::Fen;

#[test]
fn shared_by_metered_energy(rt: HostRuntime) -> Result<(), Fail> {
    let mut book = two_plants(rt)?;
    book.enrol(24, 1, micro(0))?;
    book.meter(1, kwh(5), kwh(0))?;
    book.meter(2, kwh(3), kwh(0))?;
    book.meter(24, kwh(2), kwh(0))?;
    book.compensate(1, Fen::from_count(7))?;
    assert_eq!(rt; net(&book, 1)?, 118_298_500);
    assert_eq!(rt; net(&book, 2)?, 66_579_100);
    assert_eq!(rt; net(&book, 24)?, 43_719_400);
    Ok(())
}

#[test]
fn shared_in_order(rt: HostRuntime) -> Result<(), Fail> {
    let mut book = Book::new(rt.alloc(), InOrder)?;
    book.enrol(2, 1, micro(0))?;
    book.enrol(24, 1, micro(0))?;
    book.meter(2, kwh(1), kwh(0))?;
    book.meter(24, kwh(1), kwh(0))?;
    book.compensate(24, Fen::from_count(1))?;
    assert_eq!(rt; book.settle(2, &mut [], &mut [])?.net.count(), 21_859_700);
    assert_eq!(rt; book.settle(24, &mut [], &mut [])?.net.count(), 23_859_700);
    Ok(())
}

#[test]
fn of_nothing(rt: HostRuntime) -> Result<(), Fail> {
    let mut book = two_plants(rt)?;
    book.meter(1, kwh(1), kwh(0))?;
    book.meter(2, kwh(0), kwh(0))?;
    book.compensate(2, Fen::from_count(0))?;
    assert_eq!(rt; net(&book, 1)?, 22_859_700);
    assert_eq!(rt; net(&book, 2)?, 0);
    Ok(())
}

#[test]
fn up_to_the_side_limit(rt: HostRuntime) -> Result<(), Fail> {
    let mut book = two_plants(rt)?;
    book.enter(1, 1, 6, kwh(3_000_000_000), micro(1_000_000))?;
    book.transfer(2, 1, 2, kwh(3_000_000_000), micro(0))?;
    book.meter(2, kwh(1), kwh(0))?;
    assert_eq!(rt; number(book.compensate(1, Fen::from_count(1))), 10);
    book.meter(1, kwh(0), kwh(0))?;
    assert_eq!(rt; number(book.compensate(1, Fen::from_count(1))), 9);
    assert_eq!(rt; number(book.compensate(2, Fen::from_count(1))), 0);
    assert_eq!(rt; number(book.compensate(1, Fen::from_count(0))), 0);
    Ok(())
}
