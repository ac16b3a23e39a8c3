// A line as words, its figures, and the call that it asks for.
use anyhow::anyhow;
use book::Call;
use question::ChosenRule;
use std::alloc::{AllocError, Global};
use std::error::Error;
use std::str::FromStr;
use units::{Energy, Fen, Price};

// The words of a line: what it asks for, and figures.
#[derive(Drop)]
pub struct Words<'a> {
    words: Vec<&'a str>,
}

impl<'a> Words<'a> {
    pub fn of_line(heap: Global, line: &'a str) -> Result<Words<'a>, AllocError> {
        let words = line.split(' ').collect(heap)?;
        Ok(Words { words })
    }

    pub fn name(&self) -> &'a str {
        self.words.first().copied().unwrap_or("")
    }

    fn word(&self, i: usize) -> anyhow::Result<&'a str> {
        let word = self.words.get(i).copied();
        word.ok_or_else(|| anyhow!("a line has too few figures"))
    }

    pub fn figure<T: FromStr>(&self, i: usize) -> anyhow::Result<T>
    where
        T::Err: Error,
    {
        Ok(self.word(i)?.parse::<T>()?)
    }

    // The figures from a word on.
    pub fn figures(&self, heap: Global, first: usize) -> anyhow::Result<Vec<u64>> {
        let mut figures = Vec::new(heap);
        for word in self.words.iter().skip(first) {
            figures.push(word.parse::<u64>()?)?;
        }
        Ok(figures)
    }

    pub fn energy(&self, i: usize) -> anyhow::Result<Energy> {
        Ok(Energy::from_kwh(self.figure(i)?))
    }

    pub fn price(&self, i: usize) -> anyhow::Result<Price> {
        Ok(Price::from_micro_yuan(self.figure(i)?))
    }

    fn fen(&self, i: usize) -> anyhow::Result<Fen> {
        Ok(Fen::from_count(self.figure(i)?))
    }

    pub fn rule(&self, i: usize) -> anyhow::Result<ChosenRule> {
        let rule = ChosenRule::try_from(self.word(i)?.as_bytes());
        rule.map_err(|_| anyhow!("a rule is neither equal-ratio nor in-order"))
    }

    // The call that the line asks for; none where it asks for something else.
    pub fn call(&self) -> anyhow::Result<Option<Call>> {
        let call = match self.name() {
            "enrol" => Call::Enrol(self.figure(1)?, self.figure(2)?, self.price(3)?),
            "enter" => Call::Enter(
                self.figure(1)?,
                self.figure(2)?,
                self.figure(3)?,
                self.energy(4)?,
                self.price(5)?,
            ),
            "amend" => Call::Amend(self.figure(1)?, self.energy(2)?),
            "transfer" => Call::Transfer(
                self.figure(1)?,
                self.figure(2)?,
                self.figure(3)?,
                self.energy(4)?,
                self.price(5)?,
            ),
            "meter" => Call::Meter(self.figure(1)?, self.energy(2)?, self.energy(3)?),
            "compensate" => Call::Compensate(self.figure(1)?, self.fen(2)?),
            "issue" => Call::Issue(self.figure(1)?),
            "close" => Call::Close(self.figure(1)?),
            "turn" => Call::Turn(self.price(1)?),
            _ => return Ok(None),
        };
        Ok(Some(call))
    }
}
