// Loading a sheet into a book, in one pass.
ghost use Rattle.std.specs.Prelude.{◌≡◌, drop};
ghost use Rattle.sharing.specs.Declining.{answered};
ghost use Rattle.book.specs.Holds.{ledger_of};
ghost use Rattle.sheet.specs.Formats.{Unambiguous, Whole, all_calls, calls_of, contents_from, stretches_of};
ghost use Rattle.sheet.specs.Loads.{Loaded, ReadsHeader, fault_in, item_fault, left_by};

use crate::fault::{Fault, Problem};
use crate::item::{byte_at, call_of, price_at};
use crate::section::{Section, read_section};
use book::Book;
use journal::make;
use sharing::Share;
use units::Price;

// A sheet has at most so many bytes.
pub const MOST_BYTES: usize = 65_536;

// The bytes before the first section.
const HEADER: usize = 6;

// What a sheet begins with.
#[derive(Clone, Copy)]
pub(crate) struct Header {
    sections: u8,
    month: u8,
    residential: Price,
}

// Opens the book as the header says, and makes the calls of the sections in order, up to the first fault.
// A fault of the header leaves the book as it was; any other keeps the items before it.
pub fn load<R: Share + Drop>(book: &mut Book<R>, rule: R, sheet: &[u8]) -> Result<(), Fault>
    ensures loaded { Loaded (R.Share.shares rule) sheet.now (ledger_of R.Share.shares book.old) (ledger_of R.Share.shares book.new) result }
    ensures unambiguous { Unambiguous }
{
    let header = read_header(sheet)?;
    book.open(header.month, header.residential, rule)
        .map_err(|refusal| Fault::of_book(refusal, 0, 0))?;
    make_sections(book, sheet, header.sections)
}

fn read_header(sheet: &[u8]) -> Result<Header, Fault>
    ensures { ReadsHeader sheet.now result }
{
    if sheet.len() > MOST_BYTES {
        return Err(Fault::of_sheet(Problem::TooLong, 0));
    }
    if sheet.len() < HEADER {
        return Err(Fault::of_sheet(Problem::CutShort, 0));
    }
    Ok(Header {
        sections: byte_at(sheet, 0),
        month: byte_at(sheet, 1),
        residential: price_at(sheet, 2),
    })
}

// Makes the calls of so many sections, and sees that nothing stands after them.
fn make_sections<R: Share>(book: &mut Book<R>, sheet: &[u8], count: u8) -> Result<(), Fault>
    ensures fault { result ≡ answered (fault_in (ledger_of R.Share.shares book.old) (contents_from count 6 (drop 6 sheet.now)).sections (contents_from count 6 (drop 6 sheet.now)).stop) tt }
    ensures left { ledger_of R.Share.shares book.new ≡ left_by (ledger_of R.Share.shares book.old) (all_calls (contents_from count 6 (drop 6 sheet.now)).sections) }
{
    let mut offset = HEADER;
    for _done in 0..count {
        let (section, end) = read_section(sheet, offset)?;
        make_section(book, section)?;
        offset = end;
    }
    if offset < sheet.len() {
        return Err(Fault::of_sheet(Problem::LeftOver, offset));
    }
    Ok(())
}

// Makes the call of each item, up to the first that is declined.
fn make_section<R: Share>(book: &mut Book<R>, section: Section) -> Result<(), Fault>
    requires { Whole (stretches_of section) }
    ensures fault { result ≡ answered (item_fault (ledger_of R.Share.shares book.old) (stretches_of section.entry).offset 0 (calls_of (stretches_of section.entry))) tt }
    ensures left { ledger_of R.Share.shares book.new ≡ left_by (ledger_of R.Share.shares book.old) (calls_of (stretches_of section.entry)) }
{
    let kind = section.kind();
    let (offset, heads, terms) = section.parts();
    let items = heads
        .chunks_exact(kind.head_size())
        .zip(terms.chunks_exact(kind.term_size()));
    for (item, (head, term)) in items.enumerate() {
        let answer = make(book, call_of(kind, head, term));
        answer.map_err(|refusal| Fault::of_book(refusal, offset, item))?;
    }
    Ok(())
}
