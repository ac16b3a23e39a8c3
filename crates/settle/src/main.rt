// Settles the month sheet on standard input: prints a line for each metered plant, or the line of the first fault.
#![tactic(auto)]

use anyhow::anyhow;
use sheet::MOST_BYTES;
use statement::statement;
use std::io::Read;

fn main(rt: HostRuntime) -> anyhow::Result<()> {
    run(&rt)
}

fn run(rt: &HostRuntime) -> anyhow::Result<()> {
    let sheet = read_sheet(rt)?;
    let text = statement(rt.alloc(), sheet.as_slice());
    let text = text.map_err(|_| anyhow!("there is no memory for the book and its statement"))?;
    rt.print(text.as_str())?;
    Ok(())
}

// Standard input, of which one byte past the longest sheet shows that it is too long.
// Kept: each program reads its input up to a bound of its own, and has its own words for what goes wrong.
fn read_sheet(rt: &HostRuntime) -> anyhow::Result<Vec<u8>> {
    let mut sheet = Vec::new(rt.alloc());
    rt.stdin()
        .take(MOST_BYTES as u64 + 1)
        .read_to_end(&mut sheet)
        .map_err(|error| anyhow!("standard input cannot be read: {error}"))?;
    Ok(sheet)
}
