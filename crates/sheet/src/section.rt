// A section of a sheet, handed out as the stretches of the sheet that hold its heads and its terms.
ghost use Rattle.std.specs.Prelude.{◌≡◌};
ghost use Rattle.sheet.specs.Formats.{ReadsSection, StartsWith, stretches_of};

use crate::fault::{Fault, Problem};
use crate::kind::Kind;
use crate::number::bytes_at;

// Each holds its offset in the sheet, its heads and its terms.
// Kept: a case for each kind, alike in what they hold, since the project wants the kind to be told by the case.
#[derive(Clone, Copy)]
pub enum Section<'a> {
    EnrolSection(usize, &'a [u8], &'a [u8]),
    EnterSection(usize, &'a [u8], &'a [u8]),
    TransferSection(usize, &'a [u8], &'a [u8]),
    MeterSection(usize, &'a [u8], &'a [u8]),
}

impl<'a> Section<'a> {
    fn new(kind: Kind, offset: usize, heads: &'a [u8], terms: &'a [u8]) -> Section<'a>
        ensures { stretches_of result ≡ record { kind = kind; offset = offset; heads = heads.now; terms = terms.now } }
    {
        match kind {
            Kind::Enrols => Section::EnrolSection(offset, heads, terms),
            Kind::Enters => Section::EnterSection(offset, heads, terms),
            Kind::Transfers => Section::TransferSection(offset, heads, terms),
            Kind::Meters => Section::MeterSection(offset, heads, terms),
        }
    }

    pub(crate) fn kind(self) -> Kind
        ensures { result ≡ (stretches_of self.entry).kind }
    {
        match self {
            Section::EnrolSection(..) => Kind::Enrols,
            Section::EnterSection(..) => Kind::Enters,
            Section::TransferSection(..) => Kind::Transfers,
            Section::MeterSection(..) => Kind::Meters,
        }
    }

    // Its offset, its heads and its terms.
    pub(crate) fn parts(self) -> (usize, &'a [u8], &'a [u8])
        ensures offset { result.0 ≡ (stretches_of self.entry).offset }
        ensures heads { result.1.now ≡ (stretches_of self.entry).heads }
        ensures terms { result.2.now ≡ (stretches_of self.entry).terms }
    {
        match self {
            Section::EnrolSection(offset, heads, terms)
            | Section::EnterSection(offset, heads, terms)
            | Section::TransferSection(offset, heads, terms)
            | Section::MeterSection(offset, heads, terms) => (offset, heads, terms),
        }
    }
}

// The bytes of a section's kind and count.
const START: usize = 3;

const MOST_ITEMS: usize = 256;

// The section at an offset, and the offset of what comes after it.
pub fn read_section(sheet: &[u8], offset: usize) -> Result<(Section<'_>, usize), Fault>
    ensures { ReadsSection sheet.now offset result }
{
    let rest = sheet
        .get(offset..)
        .ok_or(Fault::of_sheet(Problem::CutShort, offset))?;
    let (kind, count) = read_start(rest).map_err(|problem| Fault::of_sheet(problem, offset))?;
    let (heads, after) = rest[START..].split_at(count * kind.head_size());
    let (terms, _) = after.split_at(count * kind.term_size());
    let end = offset + START + heads.len() + terms.len();
    Ok((Section::new(kind, offset, heads, terms), end))
}

// The kind and the count of a section that is all there.
fn read_start(rest: &[u8]) -> Result<(Kind, usize), Problem>
    ensures { StartsWith rest.now result }
{
    if rest.len() < START {
        return Err(Problem::CutShort);
    }
    let kind = Kind::try_from(rest[0])?;
    let count = usize::from(u16::from_le_bytes(bytes_at(rest, 1)));
    if count > MOST_ITEMS {
        return Err(Problem::TooManyItems);
    }
    if rest.len() < START + count * kind.head_size() + count * kind.term_size() {
        return Err(Problem::CutShort);
    }
    Ok((kind, count))
}
