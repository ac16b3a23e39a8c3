// The table of 24 accounts. One account is changed at a time, and every other stands as it did.
ghost use Rattle.std.specs.Prelude.{◌≡◌, ℕ, ◌≤◌, Bool, true, map, length, replicate, ◌+ℤ◌, Some, slice_index, slice_index_or, unsigned_abs};
ghost use Rattle.std.specs.Fn.{FnOnceReturnsAtMut};
ghost use Rattle.std.specs.List.{AllByRecursion};
ghost use Rattle.book.specs.declared.account.Account.{Account};
ghost use Rattle.std.specs.Slice.Iter.{iter_rest};
ghost use Rattle.units.specs.Payments.{split, most_net, most_carry};
ghost use Rattle.book.specs.Accounts.{blank, account_of, with_account, enrolled_as, with_reading, side_moved, issued_at, closed_at, turned, metered_claims, debited};

use crate::account::{Account, credit, reversed};
use crate::plant::Plant;
use arrayvec::ArrayVec;
use market::Class;
use std::slice;
use units::{Fen, Grains, Price};

// How many plants a book has room for.
pub const PLANTS: usize = 24;

#[derive(Clone, Copy)]
pub struct AccountTable {
    rows: [Account; PLANTS],
    ghost all: { length rows ≡ 24 },
}

impl AccountTable {
    pub(crate) fn new() -> AccountTable
        ensures { result.rows ≡ replicate 24 blank }
    {
        AccountTable {
            rows: [Account {
                enrolment: None,
                reading: None,
                side: Grains::from_count(0),
                carry: Grains::from_count(0),
                issued: None,
                closed: false,
            }; PLANTS],
        }
    }

    pub(crate) fn at(&self, plant: Plant) -> Account
        ensures { result ≡ account_of plant.number self.now.rows }
    {
        self.rows[plant.index()]
    }

    pub(crate) fn iter(&self) -> slice::Iter<'_, Account>
        ensures { iter_rest result ≡ self.now.rows }
    {
        self.rows.iter()
    }

    // Changes one plant's account, and leaves every other as it was.
    pub(crate) fn change<T, F: FnOnce(&mut Account) -> T>(&mut self, plant: Plant, change: F) -> T
        requires { (account : _) → account.now ≡ account_of plant.number self.old.rows → F.pre change account }
        ensures { (after : Account) × FnOnceReturnsAtMut F.FnOnce change (account_of plant.number self.old.rows) result after × (self.new.rows ≡ with_account plant.number (λ _. after) self.old.rows) }
    {
        change(&mut self.rows[plant.index()])
    }

    // Starts a new month.
    pub(crate) fn turn(&mut self)
        ensures { self.new.rows ≡ map turned self.old.rows }
    {
        for account in &mut self.rows {
            account.turn();
        }
    }

    // The metered energy of each enrolled plant, in rising number.
    pub(crate) fn claims(&self) -> ArrayVec<u64, PLANTS>
        ensures { result.items ≡ metered_claims self.now.rows }
    {
        let mut claims = ArrayVec::new();
        for account in &self.rows {
            if account.enrolment.is_some() {
                claims.push(account.metered_kwh());
            }
        }
        claims
    }

    // Each enrolled plant, in rising number, pays the next part.
    pub(crate) fn debit(&mut self, parts: &[u64])
        requires enough { length (metered_claims self.old.rows) ≤ length parts.now }
        requires small { (k : ℕ) → slice_index parts.now k ≤ 100000000 }
        requires bounded { (k : ℕ) → unsigned_abs (slice_index_or self.old.rows k blank).side.count ≤ 300000000000000000 }
        ensures { self.new.rows ≡ debited self.old.rows parts.now }
    {
        let mut parts = parts.iter();
        for account in &mut self.rows {
            if account.enrolment.is_some() {
                if let Some(part) = parts.next() {
                    account.move_side(reversed(credit(*part)));
                }
            }
        }
    }
}
