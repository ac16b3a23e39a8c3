// Walks a month book through a month and a turn, then replays a journal on a second book. Prints each call and its answer.
#![tactic(auto)]

mod calls;
mod words;

use book::{Answer, Book, Call};
use journal::{make, replay};
use sharing::EqualRatio;
use std::io;
use units::{Energy, Grains, Price};

type MonthBook = Book<EqualRatio>;

fn main(rt: HostRuntime) -> anyhow::Result<()> {
    run(&rt)
}

fn run(rt: &HostRuntime) -> anyhow::Result<()> {
    println!(rt; "Prices are in micro-yuan per kWh. A fen is 1000000 grains.")?;
    let mut book = Book::new(rt.alloc(), EqualRatio)?;
    open(rt, &mut book, 13)?;
    open(rt, &mut book, 6)?;
    make_all(rt, &mut book, &calls::enrolments())?;
    make_all(rt, &mut book, &calls::contracts())?;
    make_all(rt, &mut book, &calls::changes())?;
    make_all(rt, &mut book, &calls::readings())?;
    settle_all(rt, &book)?;
    settle(rt, &book, 2, 1)?;
    make_all(rt, &mut book, &calls::payments())?;
    make_all(rt, &mut book, &calls::closing())?;
    settle_plant(rt, &book, 1)?;
    make_all(rt, &mut book, &calls::next_month())?;
    settle_plant(rt, &book, 1)?;
    replay_journal(rt)
}

fn open(rt: &HostRuntime, book: &mut MonthBook, month: u8) -> io::Result<()> {
    println!(rt; "open the book for month {month} at the residential price 260000")?;
    match book.open(month, Price::from_micro_yuan(260_000), EqualRatio) {
        Ok(()) => println!(rt; "  done"),
        Err(refusal) => println!(rt; "  declined, {refusal}"),
    }
}

fn make_all(rt: &HostRuntime, book: &mut MonthBook, calls: &[Call]) -> io::Result<()> {
    for call in calls {
        words::show_call(rt, call)?;
        words::show_answer(rt, make(book, *call))?;
    }
    Ok(())
}

fn settle_all(rt: &HostRuntime, book: &MonthBook) -> anyhow::Result<()> {
    for plant in 1..4 {
        settle_plant(rt, book, plant)?;
    }
    Ok(())
}

fn settle_plant(rt: &HostRuntime, book: &MonthBook, plant: u8) -> anyhow::Result<()> {
    match book.reading(plant) {
        Some(reading) => println!(rt; "the reading of plant {plant} is {} kWh", reading.metered)?,
        None => println!(rt; "plant {plant} has no reading")?,
    }
    settle(rt, book, plant, book.contract_count(plant))
}

// Asks for the settlement of a plant with places for so many contracts.
fn settle(rt: &HostRuntime, book: &MonthBook, plant: u8, places: usize) -> anyhow::Result<()> {
    println!(rt; "settle plant {plant} with places for {places} contracts")?;
    let mut energies = vec![in rt.alloc(); Energy::from_kwh(0); places]?;
    let mut amounts = vec![in rt.alloc(); Grains::from_count(0); places]?;
    match book.settle(plant, energies.as_mut_slice(), amounts.as_mut_slice()) {
        Ok(settlement) => words::show_settlement(
            rt,
            energies.as_slice(),
            amounts.as_slice(),
            &settlement,
        )?,
        Err(refusal) => println!(rt; "  declined, {refusal}")?,
    }
    Ok(())
}

fn replay_journal(rt: &HostRuntime) -> anyhow::Result<()> {
    let mut book = Book::new(rt.alloc(), EqualRatio)?;
    let calls = calls::journal();
    let mut answers = [Ok(None); 7];
    let count = calls.len();
    println!(rt; "open a new book for month 8 and replay a journal of {count} calls on it")?;
    match replay(
        &mut book,
        8,
        Price::from_micro_yuan(260_000),
        EqualRatio,
        &calls,
        &mut answers,
    ) {
        Ok(()) => show_journal(rt, &calls, &answers)?,
        Err(refusal) => println!(rt; "  declined, {refusal}")?,
    }
    settle_plant(rt, &book, 1)
}

fn show_journal(rt: &HostRuntime, calls: &[Call], answers: &[Answer]) -> io::Result<()> {
    for (call, answer) in calls.iter().zip(answers) {
        words::show_call(rt, call)?;
        words::show_answer(rt, *answer)?;
    }
    Ok(())
}
