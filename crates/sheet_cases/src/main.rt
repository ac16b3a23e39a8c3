// Settles sheets that are given as text, one to a line: a name, a space, and the bytes in hexadecimal digits.
// For each it prints a line with the name, and then the statement. A number as the argument has each settled so many times, to be timed.
#![tactic(auto)]

use anyhow::anyhow;
use statement::statement;
use std::env;
use std::io::{Read, Write};

const MOST_INPUT: u64 = 4_194_304;

fn main(rt: HostRuntime) -> anyhow::Result<()> {
    run(&rt)
}

fn run(rt: &HostRuntime) -> anyhow::Result<()> {
    // Kept: book_cases has these two lines too; a function for both would want a library of its own.
    let mut input = Vec::new(rt.alloc());
    rt.stdin().take(MOST_INPUT).read_to_end(&mut input)?;
    let output = settle_cases(rt, input.as_slice(), times(rt)?)?;
    rt.stdout().write_all(output.as_slice())?;
    Ok(())
}

// How many times each sheet is settled.
fn times(rt: &HostRuntime) -> anyhow::Result<u32> {
    match env::args(rt)?.nth(1) {
        Some(word) => Ok(word.parse::<u32>()?),
        None => Ok(1),
    }
}

fn settle_cases(rt: &HostRuntime, text: &[u8], times: u32) -> anyhow::Result<Vec<u8>> {
    let mut output = Vec::new(rt.alloc());
    for line in text.split_inclusive(|byte| *byte == b'\n') {
        let line = line.strip_suffix(b"\n").unwrap_or(line);
        settle_case(rt, line, times, &mut output)?;
    }
    Ok(output)
}

fn settle_case(
    rt: &HostRuntime,
    line: &[u8],
    times: u32,
    output: &mut Vec<u8>,
) -> anyhow::Result<()> {
    let (name, digits) = split_name(line);
    let sheet = bytes_of(rt, digits)?;
    for _ in 1..times {
        let _ = statement(rt.alloc(), sheet.as_slice())?;
    }
    let text = statement(rt.alloc(), sheet.as_slice())?;
    output.extend_from_slice(b"case ")?;
    output.extend_from_slice(name)?;
    output.extend_from_slice(b"\n")?;
    output.extend_from_slice(text.as_bytes())?;
    Ok(())
}

// What stands before the first space, and what stands after it.
fn split_name(line: &[u8]) -> (&[u8], &[u8]) {
    match line.iter().position(|byte| *byte == b' ') {
        Some(space) => (&line[..space], &line[space + 1..]),
        None => (line, b""),
    }
}

// Each two digits are a byte.
fn bytes_of(rt: &HostRuntime, digits: &[u8]) -> anyhow::Result<Vec<u8>> {
    let mut bytes = Vec::new(rt.alloc());
    let (pairs, rest) = digits.as_chunks::<2>();
    for [high, low] in pairs {
        bytes.push(value_of(*high)? << 4 | value_of(*low)?)?;
    }
    if let [digit] = rest {
        let _ = value_of(*digit)?;
        return Err(anyhow!("a case has an odd number of hexadecimal digits"));
    }
    Ok(bytes)
}

fn value_of(digit: u8) -> anyhow::Result<u8> {
    match digit {
        b'0'..=b'9' => Ok(digit - b'0'),
        b'a'..=b'f' => Ok(digit - b'a' + 10),
        _ => Err(anyhow!("a case is not in hexadecimal digits")),
    }
}
