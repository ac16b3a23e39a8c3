// A caller that makes its calls itself, and has the law of every run all the same.
ghost use Rattle.book.specs.Holds.{ledger_of};
ghost use Rattle.journal.specs.Replays.{first_calls, MonthMade};

use book::{Answer, Book, Enrolment, Reading, Refusal};
use sharing::Share;
use units::Price;

// Opens the book, and enrols, meters and issues one plant. Only opening can be declined as a whole.
pub fn one_month<R: Share + Drop>(
    book: &mut Book<R>,
    month: u8,
    residential: Price,
    rule: R,
    plant: u8,
    enrolment: Enrolment,
    reading: Reading,
) -> Result<[Answer; 3], Refusal>
    ensures { MonthMade (R.Share.shares rule) month residential (first_calls plant enrolment reading) (ledger_of R.Share.shares book.old) (ledger_of R.Share.shares book.new) result }
{
    book.open(month, residential, rule)?;
    let enrolled = book.enrol(plant, u8::from(enrolment.class), enrolment.approved);
    let metered = book.meter(plant, reading.metered, reading.commissioning);
    let issued = book.issue(plant);
    Ok([
        enrolled.map(|()| None),
        metered.map(|()| None),
        issued.map(Some),
    ])
}
