// Compensations: one plant is credited, and all enrolled plants bear it.
ghost use Rattle.std.specs.Prelude.{◌≡◌, ℕ, ◌<◌, ◌≤◌, true, length, sum, slice_index};
ghost use Rattle.book.specs.Accounts.{any_account, has_generated, compensated as accounts_compensated};
ghost use Rattle.book.specs.Calls.{Makes, told};
ghost use Rattle.book.specs.Holds.{ledger_of};

use super::Book;
use crate::account::{Account, credit};
use crate::accounts::{AccountTable, PLANTS};
use crate::call::Call;
use crate::plant::Plant;
use crate::refusal::Refusal;
use sharing::Share;
use units::Fen;

// Asks the rule for a share that it never declines.
fn share_out<R: Share>(rule: &R, claims: &[u64], total: u64, parts: &mut [u64])
    requires long { length parts.old ≡ length claims.now }
    requires few { length claims.now ≤ 24 }
    requires each { (i : ℕ) → slice_index claims.now i ≤ 3000000000 }
    requires some { 0 < sum claims.now }
    requires small { total ≤ 100000000 }
    ensures parts { parts.new ≡ R.shares rule.now claims.now total }
    ensures adds { sum parts.new ≡ total }
{
    rule.share(claims, total, parts).unwrap();
}

impl<R: Share> Book<R> {
    // The accounts as a compensation would leave them.
    fn compensated(&self, plant: Plant, fen: u64) -> AccountTable
        requires fen { fen ≤ 100000000 }
        requires some { any_account has_generated (ledger_of R.Share.shares self.now).accounts ≡ true }
        ensures { result.rows ≡ accounts_compensated (R.Share.shares self.now.rule) plant.number fen (ledger_of R.Share.shares self.now).accounts }
    {
        let claims = self.accounts.claims();
        // Kept: an array cut to a length. The rule fills a slice, and no call on a book may want heap.
        let mut parts = [0; PLANTS];
        let parts = &mut parts[..claims.len()];
        share_out(&self.rule, claims.as_slice(), fen, parts);
        let mut next = self.accounts;
        next.debit(parts);
        let credit = credit(fen);
        next.change(plant, |account| account.move_side(credit));
        next
    }

    // Credits one plant with an amount, and shares it in whole fen by the book's rule, as debits, over all enrolled plants,
    // itself among them, in rising number, with metered energies as claims.
    pub fn compensate(&mut self, plant: u8, amount: Fen) -> Result<(), Refusal>
        ensures { Makes (ledger_of R.Share.shares self.old) (Call.Compensate plant amount) (ledger_of R.Share.shares self.new) (told result) }
    {
        let plant = Plant::try_from(plant)?;
        let fen = self.may_compensate(plant, amount)?;
        let next = self.compensated(plant, fen);
        if next.iter().any(Account::is_past_side_limit) {
            return Err(Refusal::SumPastLimit);
        }
        self.accounts = next;
        Ok(())
    }
}
