// Makes the calls that lines of text ask for on a month book, and prints the answer of each.
#![tactic(auto)]

mod answers;
mod line;

use book::Book;
use question::ChosenRule;
use std::io::Read;
use std::str;

const MOST_INPUT: u64 = 4_194_304;

fn main(rt: HostRuntime) -> anyhow::Result<()> {
    run(&rt)
}

fn run(rt: &HostRuntime) -> anyhow::Result<()> {
    // Kept: sheet_cases has these two lines too; a function for both would want a library of its own.
    let mut input = Vec::new(rt.alloc());
    rt.stdin().take(MOST_INPUT).read_to_end(&mut input)?;
    let text = str::from_utf8(input.as_slice())?;
    let mut book = Book::new(rt.alloc(), ChosenRule::EqualRatio)?;
    for line in text.lines() {
        answers::answer(rt, &mut book, line)?;
    }
    Ok(())
}
