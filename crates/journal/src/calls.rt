// A call that is a value, made on a book.
ghost use Rattle.std.specs.Prelude.{◌≡◌};
ghost use Rattle.book.specs.Calls.{Makes};
ghost use Rattle.book.specs.Holds.{ledger_of};

use book::{Answer, Book, Call};
use sharing::Share;

// Makes any one call.
pub fn make<R: Share>(book: &mut Book<R>, call: Call) -> Answer
    ensures { Makes (ledger_of R.Share.shares book.old) call (ledger_of R.Share.shares book.new) result }
{
    match call {
        Call::Enrol(plant, class, approved) => book.enrol(plant, class, approved)?,
        Call::Enter(number, plant, rank, energy, price) => {
            book.enter(number, plant, rank, energy, price)?
        }
        Call::Amend(number, energy) => book.amend(number, energy)?,
        Call::Transfer(new, old, receiver, energy, price) => {
            book.transfer(new, old, receiver, energy, price)?
        }
        Call::Meter(plant, metered, commissioning) => { book.meter(plant, metered, commissioning)? }
        Call::Compensate(plant, amount) => book.compensate(plant, amount)?,
        Call::Issue(plant) => return Ok(Some(book.issue(plant)?)),
        Call::Close(plant) => book.close(plant)?,
        Call::Turn(residential) => book.turn(residential)?,
    }
    Ok(None)
}
