// One plant's account, and what a call changes in it.
ghost use Rattle.std.specs.Prelude.{◌≡◌, ◌*◌, ◌≤◌, pos, ◌+ℤ◌, neg_ℤ, Some, unsigned_abs};
ghost use Rattle.units.specs.Payments.{split, most_net, most_carry};
ghost use Rattle.book.specs.Accounts.{is_unclosed, is_unmetered, metered_kwh, has_generated, is_past_side_limit, enrolled_as, with_reading, side_moved, issued_at, closed_at, turned as after_turn};

use market::Class;
use units::{Energy, Fen, Grains, Price, pay};

// The class of an enrolled plant, and its approved price.
#[derive(Clone, Copy)]
pub struct Enrolment {
    pub class: Class,
    pub approved: Price,
}

// What the meter showed, and how much of it is commissioning energy.
#[derive(Clone, Copy)]
pub struct Reading {
    pub metered: Energy,
    pub commissioning: Energy,
}

#[derive(Clone, Copy)]
pub struct Account {
    pub enrolment: Option<Enrolment>,
    // A plant that is not yet metered has no figure, which differs from zero.
    pub reading: Option<Reading>,
    // What fees and compensations have brought this month.
    pub side: Grains,
    // What the payments so far have not paid out.
    pub carry: Grains,
    // The net at which this month was issued.
    pub issued: Option<Grains>,
    // Kept: calls ask whether a plant is issued and whether it is closed each on its own, and a closed plant still holds its net
    // at issue, so one enum of stages would be matched apart at each place.
    pub closed: bool,
}

impl Account {
    // Enrolled and not closed.
    pub(crate) fn is_unclosed(&self) -> bool
        ensures { result ≡ is_unclosed self.now }
    {
        self.enrolment.is_some() && !self.closed
    }

    // Enrolled and not metered.
    pub(crate) fn is_unmetered(&self) -> bool
        ensures { result ≡ is_unmetered self.now }
    {
        self.enrolment.is_some() && self.reading.is_none()
    }

    // Enrolled, with metered energy above zero.
    pub(crate) fn has_generated(&self) -> bool
        ensures { result ≡ has_generated self.now }
    {
        self.enrolment.is_some() && self.metered_kwh() > 0
    }

    pub(crate) fn is_past_side_limit(&self) -> bool
        ensures { result ≡ is_past_side_limit self.now }
    {
        !self.side.within_side_limit()
    }

    // Zero for a plant that is not yet metered.
    pub(crate) fn metered_kwh(&self) -> u64
        ensures { result ≡ metered_kwh self.now.reading }
    {
        self.reading.map_or(0, |reading| reading.metered.kwh())
    }

    pub(crate) fn enrol(&mut self, class: Class, approved: Price)
        ensures { self.new ≡ enrolled_as (Some class) approved self.old }
    {
        self.enrolment = Some(Enrolment { class, approved });
    }

    pub(crate) fn meter(&mut self, reading: Reading)
        ensures { self.new ≡ with_reading reading self.old }
    {
        self.reading = Some(reading);
    }

    pub(crate) fn move_side(&mut self, amount: Grains)
        requires side { unsigned_abs self.old.side.count ≤ 400000000000000000 }
        requires amount { unsigned_abs amount.count ≤ 400000000000000000 }
        ensures { self.new ≡ side_moved amount.count self.old }
    {
        self.side = self.side.checked_add(amount).unwrap();
    }

    // Pays whole fen of net and carry, rounded down, and carries the rest.
    pub(crate) fn issue(&mut self, net: Grains) -> Fen
        requires net { unsigned_abs net.count ≤ most_net }
        requires carry { unsigned_abs self.old.carry.count ≤ most_carry }
        ensures left { self.new ≡ issued_at net.count self.old }
        ensures paid { result ≡ (split (net.count +ℤ self.old.carry.count)).fen }
    {
        let payment = pay(net, self.carry).unwrap();
        self.carry = payment.carry;
        self.issued = Some(net);
        payment.fen
    }

    // Adds the net now less the net at issue to the carry, and freezes the account.
    pub(crate) fn close(&mut self, net: Grains, at_issue: Grains)
        requires net { unsigned_abs net.count ≤ most_net }
        requires issued { unsigned_abs at_issue.count ≤ most_net }
        requires carry { unsigned_abs self.old.carry.count ≤ most_carry }
        requires same { self.old.issued ≡ Some at_issue }
        ensures { self.new ≡ closed_at net.count self.old }
    {
        let change = net.checked_sub(at_issue).unwrap();
        self.carry = self.carry.checked_add(change).unwrap();
        self.closed = true;
    }

    // A new month keeps the plant and its carry.
    pub(crate) fn turn(&mut self)
        ensures { self.new ≡ after_turn self.old }
    {
        self.reading = None;
        self.side = Grains::from_count(0);
        self.issued = None;
        self.closed = false;
    }
}

// An amount of a compensation.
pub(crate) fn credit(fen: u64) -> Grains
    requires { fen ≤ 100000000 }
    ensures { result.count ≡ pos (fen * 1000000) }
{
    Fen::from_count(fen as i64).grains().unwrap()
}

// The same amount, taken.
pub(crate) fn reversed(amount: Grains) -> Grains
    requires { unsigned_abs amount.count ≤ 300000000000000000 }
    ensures { result.count ≡ neg_ℤ amount.count }
{
    amount.checked_neg().unwrap()
}
