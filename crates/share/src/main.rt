// Shares totals over claims as text on standard input asks for it, and prints each step.
#![tactic(auto)]

use anyhow::ensure;
use question::{
    ChosenRule, Failure, Lines, Question, Step, claimed_in_all, read_question, work_out,
};
use std::io;
use std::io::Read;

const MOST_INPUT: usize = 65_536;

fn main(rt: HostRuntime) -> anyhow::Result<()> {
    run(&rt)
}

fn run(rt: &HostRuntime) -> anyhow::Result<()> {
    let input = read_input(rt)?;
    answer_lines(rt, input.as_slice())?;
    Ok(())
}

// All of standard input, of which no more is read than is needed to see that it is too long.
// Kept: each program reads its input up to a bound of its own, and has its own words for what goes wrong.
fn read_input(rt: &HostRuntime) -> anyhow::Result<Vec<u8>> {
    let mut input = Vec::new(rt.alloc());
    rt.stdin()
        .take(MOST_INPUT as u64 + 1)
        .read_to_end(&mut input)?;
    ensure!(
        input.len() <= MOST_INPUT,
        "standard input is longer than 65536 bytes"
    );
    Ok(input)
}

fn answer_lines(rt: &HostRuntime, text: &[u8]) -> io::Result<()> {
    for (before, line) in Lines::of(text).enumerate() {
        answer(rt, before.saturating_add(1), line)?;
    }
    Ok(())
}

fn answer(rt: &HostRuntime, number: usize, line: &[u8]) -> io::Result<()> {
    match read_question(rt.alloc(), line) {
        Ok(None) => Ok(()),
        Ok(Some(question)) => {
            print!(rt; "line {number}: ")?;
            show_question(rt, &question)?;
            show_answer(rt, &question)
        }
        Err(fault) => println!(rt; "line {number}: not read: {fault}"),
    }
}

fn show_question(rt: &HostRuntime, question: &Question) -> io::Result<()> {
    let total = question.total;
    let rule = question.rule;
    print!(rt; "share {total} {rule} over")?;
    if question.claims.is_empty() {
        print!(rt; " no claims")?;
    }
    for claim in question.claims.as_slice() {
        print!(rt; " {claim}")?;
    }
    let claimed = claimed_in_all(question.claims.as_slice());
    println!(rt; "\n  the claims add up to W = {claimed}")
}

fn show_answer(rt: &HostRuntime, question: &Question) -> io::Result<()> {
    match work_out(rt.alloc(), question) {
        Ok(steps) => show_steps(rt, question, steps.as_slice()),
        Err(Failure::Declined(refusal)) => println!(rt; "  declined, {refusal}"),
        Err(Failure::NoMemory) => println!(rt;
            "  not worked out: there is no memory for the parts"
        ),
    }
}

fn show_steps(rt: &HostRuntime, question: &Question, steps: &[Step]) -> io::Result<()> {
    let claimed = claimed_in_all(question.claims.as_slice());
    for step in steps {
        match question.rule {
            ChosenRule::EqualRatio => show_ratio_step(rt, question.total, claimed, step)?,
            ChosenRule::InOrder => show_order_step(rt, question.total, step)?,
        }
    }
    let given = steps.last().map_or(0, |step| step.given);
    println!(rt; "  the parts add up to {given}")
}

fn show_ratio_step(rt: &HostRuntime, total: u64, claimed: u128, step: &Step) -> io::Result<()> {
    let Step {
        claim,
        sum,
        part,
        given,
    } = *step;
    if claimed == 0 {
        return println!(rt; "  claim {claim}: part {part}, since nothing is claimed");
    }
    println!(rt;
        "  claim {claim}: sum {sum}, running floor of {total} * {sum} / {claimed} is {given}, part {part}"
    )
}

fn show_order_step(rt: &HostRuntime, total: u64, step: &Step) -> io::Result<()> {
    let claim = step.claim;
    let part = step.part;
    let left = total.saturating_sub(step.given);
    println!(rt; "  claim {claim}: part {part}, {left} left")
}
