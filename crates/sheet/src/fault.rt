// What is wrong with a sheet, and where.
ghost use Rattle.std.specs.Prelude.{◌≡◌};
ghost use Rattle.sheet.specs.Faults.{cause_number, fault_at, layer_of, problem_number, sheet_fault};
ghost use Rattle.sheet.specs.declared.fault.Cause.TheVariants.{Book};

use book::Refusal;

// What is wrong with the bytes themselves, with the number by which it is known in every document and program.
#[derive(Clone, Copy, PartialEq, Eq, Debug)]
pub enum Problem {
    // The sheet has more than 65,536 bytes.
    TooLong = 31,
    // The header, the start of a section, or its heads and terms are not all there.
    CutShort = 32,
    // The kind of a section is not 1 to 4.
    UnknownKind = 33,
    // A section has more than 256 items.
    TooManyItems = 34,
    // Bytes stand after the last section.
    LeftOver = 35,
}

impl Problem {
    fn number(self) -> u8
        ensures { result ≡ problem_number self }
    {
        self as u8
    }
}

#[derive(Clone, Copy, PartialEq, Debug)]
pub enum Cause {
    // The sheet itself, which is layer 1.
    Sheet(Problem),
    // A call that the book declined, which is layer 2.
    Book(Refusal),
}

// Kept: a cause has two numbers, so these are methods, and a From would have to choose one.
impl Cause {
    pub fn layer(self) -> u8
        ensures { result ≡ layer_of self }
    {
        match self {
            Cause::Sheet(_) => 1,
            Cause::Book(_) => 2,
        }
    }

    pub fn number(self) -> u8
        ensures { result ≡ cause_number self }
    {
        match self {
            Cause::Sheet(problem) => problem.number(),
            Cause::Book(refusal) => refusal.number(),
        }
    }
}

#[derive(Clone, Copy, PartialEq, Debug)]
pub struct Fault {
    pub cause: Cause,
    // The offset of the section, 0 for the header.
    pub offset: usize,
    // The item within the section, from 0; 0 outside an item.
    pub item: usize,
}

impl Fault {
    // A fault of the sheet itself, outside an item.
    pub(crate) fn of_sheet(problem: Problem, offset: usize) -> Fault
        ensures { result ≡ sheet_fault offset problem }
    {
        Fault {
            cause: Cause::Sheet(problem),
            offset,
            item: 0,
        }
    }

    // A call that the book declined.
    pub(crate) fn of_book(refusal: Refusal, offset: usize, item: usize) -> Fault
        ensures { result ≡ fault_at offset item (Book refusal) }
    {
        Fault {
            cause: Cause::Book(refusal),
            offset,
            item,
        }
    }
}
