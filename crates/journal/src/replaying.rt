// A list of calls, replayed on a book that is opened for it.
ghost use Rattle.std.specs.Prelude.{◌≡◌, length};
ghost use Rattle.book.specs.Calls.{declined_by};
ghost use Rattle.book.specs.Holds.{ledger_of};
ghost use Rattle.book.specs.Tallies.{Run};
ghost use Rattle.journal.specs.Replays.{replay_declined, Replayed};

use crate::calls::make;
use book::{Answer, Book, Call, Refusal, open_within};
use sharing::Share;
use units::Price;

// Opens the book and makes the calls in order, each with its answer.
// Kept: calls and answers are two slices, as callers hold them.
// Declined, as open would be or where there are not as many answers as calls, it changes neither book nor answers.
pub fn replay<R: Share + Drop>(
    book: &mut Book<R>,
    month: u8,
    residential: Price,
    rule: R,
    calls: &[Call],
    answers: &mut [Answer],
) -> Result<(), Refusal>
    ensures { Replayed (R.Share.shares rule) month residential calls.now answers.old answers.new (ledger_of R.Share.shares book.old) (ledger_of R.Share.shares book.new) result }
{
    may_replay(month, residential, calls.len(), answers.len())?;
    book.open(month, residential, rule)?;
    make_all(book, calls, answers);
    Ok(())
}

// The limits go before the lengths.
fn may_replay(month: u8, residential: Price, calls: usize, answers: usize) -> Result<(), Refusal>
    ensures { declined_by result ≡ replay_declined month residential calls answers }
{
    if !open_within(month, residential) {
        return Err(Refusal::PastLimit);
    }
    if calls != answers {
        return Err(Refusal::SliceLength);
    }
    Ok(())
}

fn make_all<R: Share>(book: &mut Book<R>, calls: &[Call], answers: &mut [Answer])
    requires { length answers.old ≡ length calls.now }
    ensures { Run (ledger_of R.Share.shares book.old) calls.now answers.new (ledger_of R.Share.shares book.new) }
{
    // Kept: by index. Tried with zip and iter_mut: a proof learns nothing of what is written through them. A loop over what is
    // written that asks an iterator for the next reads no plainer.
    for (i, call) in calls.iter().enumerate() {
        answers[i] = make(book, *call);
    }
}
