// The answers of calls and questions, a line for each.
use crate::line::Words;
use anyhow::anyhow;
use book::{Answer, Book};
use journal::make;
use market::{Settlement, divide};
use question::ChosenRule;
use sharing::Share;
use std::{fmt, io};
use units::{Energy, Grains};

// A settlement has at most so many places, and a share so many claims.
const MOST_PLACES: u64 = 1000;

pub fn answer(rt: &HostRuntime, book: &mut Book<ChosenRule>, line: &str) -> anyhow::Result<()> {
    let words = Words::of_line(rt.alloc(), line)?;
    match words.call()? {
        Some(call) => show(rt, make(book, call))?,
        None => answer_other(rt, book, &words)?,
    }
    Ok(())
}

// What is no call of the journal.
fn answer_other(
    rt: &HostRuntime,
    book: &mut Book<ChosenRule>,
    words: &Words,
) -> anyhow::Result<()> {
    match words.name() {
        "book" => {
            *book = Book::new(rt.alloc(), words.rule(1)?)?;
            println!(rt; "book")?;
        }
        "open" => {
            let opened = book.open(words.figure(1)?, words.price(2)?, words.rule(3)?);
            show(rt, opened.map(|()| None))?;
        }
        "settle" => settle(rt, book, words)?,
        "share" => share(rt, words)?,
        "divide" => divide_over(rt, words)?,
        _ => return Err(anyhow!("a line asks for nothing that there is")),
    }
    Ok(())
}

fn show(rt: &HostRuntime, answer: Answer) -> io::Result<()> {
    match answer {
        Ok(None) => println!(rt; "done"),
        Ok(Some(fen)) => println!(rt; "paid {fen}"),
        Err(refusal) => show_declined(rt, refusal.number()),
    }
}

fn show_declined(rt: &HostRuntime, number: u8) -> io::Result<()> {
    println!(rt; "declined {number}")
}

fn places(words: &Words, i: usize) -> anyhow::Result<usize> {
    let places = words.figure::<u64>(i)?;
    if places > MOST_PLACES {
        return Err(anyhow!("a line asks for too many places"));
    }
    Ok(places as usize)
}

fn settle(rt: &HostRuntime, book: &Book<ChosenRule>, words: &Words) -> anyhow::Result<()> {
    let mut energies = vec![in rt.alloc(); Energy::from_kwh(0); places(words, 2)?]?;
    let mut amounts = vec![in rt.alloc(); Grains::from_count(0); places(words, 3)?]?;
    match book.settle(
        words.figure(1)?,
        energies.as_mut_slice(),
        amounts.as_mut_slice(),
    ) {
        Ok(settlement) => show_settlement(
            rt,
            &settlement,
            energies.as_slice(),
            amounts.as_slice(),
        )?,
        Err(refusal) => show_declined(rt, refusal.number())?,
    }
    Ok(())
}

fn show_settlement(
    rt: &HostRuntime,
    settlement: &Settlement,
    energies: &[Energy],
    amounts: &[Grains],
) -> io::Result<()> {
    let Settlement {
        commissioning,
        over_generation,
        over_deviation,
        shortfall,
        assessed,
        net,
    } = settlement;
    print!(rt;
        "settled {commissioning} {over_generation} {over_deviation} {shortfall} {assessed} {net}"
    )?;
    for (energy, amount) in energies.iter().zip(amounts) {
        print!(rt; " {energy} {amount}")?;
    }
    println!(rt; "")
}

fn share(rt: &HostRuntime, words: &Words) -> anyhow::Result<()> {
    let total = words.figure(2)?;
    let claims = words.figures(rt.alloc(), 3)?;
    let mut parts = vec![in rt.alloc(); 0; claims.len()]?;
    let rule = words.rule(1)?;
    match rule.share(claims.as_slice(), total, parts.as_mut_slice()) {
        Ok(()) => {
            show_parts(rt, parts.as_slice())?;
            println!(rt; "")?;
        }
        Err(refusal) => show_declined(rt, refusal.number())?,
    }
    Ok(())
}

fn divide_over(rt: &HostRuntime, words: &Words) -> anyhow::Result<()> {
    let figures = words.figures(rt.alloc(), 2)?;
    let claims = figures.iter().map(|kwh| Energy::from_kwh(*kwh));
    let claims: Vec<Energy> = claims.collect(rt.alloc())?;
    let mut parts = vec![in rt.alloc(); Energy::from_kwh(0); claims.len()]?;
    match divide(words.energy(1)?, claims.as_slice(), parts.as_mut_slice()) {
        Ok((left, unfilled)) => {
            show_parts(rt, parts.as_slice())?;
            println!(rt; " {left} {unfilled}")?;
        }
        Err(refusal) => show_declined(rt, refusal.number())?,
    }
    Ok(())
}

fn show_parts<T: fmt::Display>(rt: &HostRuntime, parts: &[T]) -> io::Result<()> {
    print!(rt; "parts")?;
    for part in parts {
        print!(rt; " {part}")?;
    }
    Ok(())
}
