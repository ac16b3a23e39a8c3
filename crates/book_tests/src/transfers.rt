// Transfers and their fees.
use crate::setup::{kwh, micro, net, number, two_plants, with_contract};
use std::test::Fail;

#[test]
fn the_receiver_pays_the_giver(rt: HostRuntime) -> Result<(), Fail> {
    let mut book = with_contract(rt)?;
    book.transfer(8, 7, 2, kwh(20), micro(200_000))?;
    book.meter(1, kwh(40), kwh(0))?;
    book.meter(2, kwh(20), kwh(0))?;
    assert_eq!(rt; net(&book, 1)?, 1_100_000_000);
    assert_eq!(rt; net(&book, 2)?, 400_000_000);
    Ok(())
}

#[test]
fn the_giver_pays_the_receiver(rt: HostRuntime) -> Result<(), Fail> {
    let mut book = with_contract(rt)?;
    book.transfer(8, 7, 2, kwh(20), micro(300_000))?;
    book.meter(1, kwh(40), kwh(0))?;
    book.meter(2, kwh(20), kwh(0))?;
    assert_eq!(rt; net(&book, 1)?, 900_000_000);
    assert_eq!(rt; net(&book, 2)?, 600_000_000);
    Ok(())
}

#[test]
fn the_whole_energy(rt: HostRuntime) -> Result<(), Fail> {
    let mut book = with_contract(rt)?;
    book.transfer(8, 7, 2, kwh(60), micro(250_000))?;
    assert_eq!(rt; book.contract_count(1), 1);
    assert_eq!(rt; book.contract_count(2), 1);
    assert_eq!(rt; number(book.transfer(9, 7, 2, kwh(1), micro(0))), 7);
    book.meter(1, kwh(0), kwh(0))?;
    assert_eq!(rt; net(&book, 1)?, 0);
    book.transfer(9, 8, 1, kwh(60), micro(250_000))?;
    book.meter(1, kwh(60), kwh(0))?;
    assert_eq!(rt; net(&book, 1)?, 1_500_000_000);
    Ok(())
}

#[test]
fn up_to_the_side_limit(rt: HostRuntime) -> Result<(), Fail> {
    let mut book = two_plants(rt)?;
    book.enter(1, 1, 6, kwh(3_000_000_000), micro(1_000_000))?;
    book.transfer(2, 1, 2, kwh(3_000_000_000), micro(0))?;
    book.enter(3, 1, 6, kwh(1), micro(1_000_000))?;
    // past the sum
    assert_eq!(rt; number(book.transfer(4, 3, 2, kwh(1), micro(1_000_000))), 9);
    book.amend(2, kwh(0))?;
    // past the side balances
    assert_eq!(rt; number(book.transfer(4, 3, 2, kwh(1), micro(0))), 9);
    book.enrol(3, 1, micro(0))?;
    assert_eq!(rt; number(book.transfer(4, 3, 3, kwh(1), micro(999_999))), 9);
    assert_eq!(rt; number(book.transfer(4, 3, 2, kwh(1), micro(1_000_000))), 0);
    Ok(())
}
