// Which calls are declined. A check changes nothing; the effects stand in another file.
ghost use Rattle.std.specs.Prelude.{◌≡◌, ◌≤◌, true, false, ◌+ℤ◌, IfOk, MatchResult, Some, ◌≢◌, unsigned_abs};
ghost use Rattle.units.specs.Fees.{fee_of};
ghost use Rattle.units.specs.Limits.{side_balance};
ghost use Rattle.book.specs.Accounts.{account_of, is_enrolled};
ghost use Rattle.market.specs.Kinds.{class_of, rank_of};
ghost use Rattle.book.specs.Calls.{declined, declined_by, accepted, enrol_within, enter_within, trade_allowed, transfer_past, unshared, ByShares};
ghost use Rattle.book.specs.Holds.{ledger_of};
ghost use Rattle.book.specs.Ledgers.{with_rows};
ghost use Rattle.book.specs.Rows.{plant_ok, row_of, with_row};

use super::Book;
use crate::account::{Account, Reading, reversed};
use crate::call::Call;
use crate::order::Order;
use crate::plant::Plant;
use crate::refusal::Refusal;
use crate::row::Row;
use market::{Class, Contract, Rank};
use sharing::Share;
use units::{Energy, Fen, Grains, Price, fee};

impl<R: Share> Book<R> {
    // The account of a plant, which has to be enrolled.
    pub(crate) fn enrolled(&self, plant: Plant) -> Result<Account, Refusal>
        ensures { MatchResult result
            (λ a. (a ≡ account_of plant.number (ledger_of R.Share.shares self.now).accounts) × (is_enrolled a ≡ true))
            (λ why. (is_enrolled (account_of plant.number (ledger_of R.Share.shares self.now).accounts) ≡ false) × (why ≡ Refusal.NotEnrolled)) }
    {
        let account = self.accounts.at(plant);
        if account.enrolment.is_none() {
            return Err(Refusal::NotEnrolled);
        }
        Ok(account)
    }

    // Answers the class that a number names.
    pub(crate) fn may_enrol(
        &self,
        plant: Plant,
        class: u8,
        approved: Price,
    ) -> Result<Class, Refusal>
        ensures answer { declined_by result ≡ declined (ledger_of R.Share.shares self.now) (Call.Enrol plant.number class approved) }
        ensures kind { IfOk result (λ k. class_of class ≡ Some k) }
    {
        let class = class_within(plant, class, approved)?;
        if self.accounts.at(plant).enrolment.is_some() {
            return Err(Refusal::AlreadyThere);
        }
        Ok(class)
    }

    // Answers the contract as it will stand in the book.
    pub(crate) fn may_enter(
        &self,
        number: u32,
        plant: Plant,
        rank: u8,
        energy: Energy,
        price: Price,
    ) -> Result<Row, Refusal>
        ensures answer { declined_by result ≡ declined (ledger_of R.Share.shares self.now) (Call.Enter number plant.number rank energy price) }
        ensures row { IfOk result (λ c. accepted (ledger_of R.Share.shares self.now) (Call.Enter number plant.number rank energy price) ≡ with_rows (with_row c (ledger_of R.Share.shares self.now).rows) (ledger_of R.Share.shares self.now)) }
    {
        let rank = rank_within(number, plant, rank, energy, price)?;
        let account = self.accounts.at(plant);
        let enrolment = account.enrolment.ok_or(Refusal::NotEnrolled)?;
        if self.contracts.find(number).is_some() {
            return Err(Refusal::AlreadyThere);
        }
        if account.closed {
            return Err(Refusal::Closed);
        }
        if !enrolment.class.may_hold(rank) {
            return Err(Refusal::NotPermitted);
        }
        if self.contracts.is_full() {
            return Err(Refusal::Full);
        }
        let sum = self.contracts.plant_sum(plant.number).kwh() + energy.kwh();
        if !Energy::from_kwh(sum).within_limit() {
            return Err(Refusal::SumPastLimit);
        }
        Ok(Row {
            number,
            plant: plant.number,
            contract: Contract {
                rank,
                energy,
                price,
            },
        })
    }

    pub(crate) fn may_amend(&self, number: u32, energy: Energy) -> Result<(), Refusal>
        ensures { declined_by result ≡ declined (ledger_of R.Share.shares self.now) (Call.Amend number energy) }
    {
        if number == 0 || !energy.within_limit() {
            return Err(Refusal::PastLimit);
        }
        let row = self.contracts.find(number).ok_or(Refusal::NoContract)?;
        if self.accounts.at(Plant::holding(row)).closed {
            return Err(Refusal::Closed);
        }
        let rest = self.contracts.plant_sum(row.plant).kwh() - row.contract.energy.kwh();
        if !Energy::from_kwh(rest + energy.kwh()).within_limit() {
            return Err(Refusal::SumPastLimit);
        }
        Ok(())
    }

    pub(crate) fn may_meter(&self, plant: Plant, reading: Reading) -> Result<(), Refusal>
        ensures { declined_by result ≡ declined (ledger_of R.Share.shares self.now) (Call.Meter plant.number reading.metered reading.commissioning) }
    {
        if !reading.metered.within_limit() || !reading.commissioning.within_limit() {
            return Err(Refusal::PastLimit);
        }
        let account = self.enrolled(plant)?;
        if account.closed {
            return Err(Refusal::Closed);
        }
        if reading.metered.kwh() < reading.commissioning.kwh() {
            return Err(Refusal::TooMuch);
        }
        Ok(())
    }

    pub(crate) fn may_issue(&self, plant: Plant) -> Result<(), Refusal>
        ensures { declined_by result ≡ declined (ledger_of R.Share.shares self.now) (Call.Issue plant.number) }
    {
        let account = self.enrolled(plant)?;
        if account.issued.is_some() {
            return Err(Refusal::AlreadyThere);
        }
        if account.reading.is_none() {
            return Err(Refusal::NotReady);
        }
        Ok(())
    }

    // Answers the net at issue.
    pub(crate) fn may_close(&self, plant: Plant) -> Result<Grains, Refusal>
        ensures answer { declined_by result ≡ declined (ledger_of R.Share.shares self.now) (Call.Close plant.number) }
        ensures issued { IfOk result (λ n. (account_of plant.number (ledger_of R.Share.shares self.now).accounts).issued ≡ Some n) }
    {
        let account = self.enrolled(plant)?;
        if account.closed {
            return Err(Refusal::Closed);
        }
        account.issued.ok_or(Refusal::NotReady)
    }

    pub(crate) fn may_turn(&self, residential: Price) -> Result<(), Refusal>
        ensures { declined_by result ≡ declined (ledger_of R.Share.shares self.now) (Call.Turn residential) }
    {
        if !residential.within_limit() {
            return Err(Refusal::PastLimit);
        }
        if self.accounts.iter().any(Account::is_unclosed) {
            return Err(Refusal::NotReady);
        }
        Ok(())
    }
}

impl<R: Share> Book<R> {
    #[tactic(auto, unfolding(crate::specs::Calls::trade_allowed))]
    fn trade_allowed(&self, row: Row, receiver: Plant) -> bool
        requires { plant_ok row.plant ≡ true }
        ensures { result ≡ trade_allowed (ledger_of R.Share.shares self.now) receiver.number row }
    {
        let giving = self.accounts.at(Plant::holding(row)).enrolment;
        let taking = self.accounts.at(receiver).enrolment;
        giving.is_some_and(|giving| giving.class.may_transfer())
            && taking.is_some_and(|taking| {
                taking.class.may_transfer() && taking.class.may_hold(row.contract.rank)
            })
            && row.plant != receiver.number
    }

    // Whether a transfer that is allowed would pass a limit.
    fn transfer_past(&self, order: Order, row: Row) -> bool
        requires row { row_of row.number (ledger_of R.Share.shares self.now).rows ≡ Some row }
        requires apart { row.plant ≢ order.receiver.number }
        ensures { result ≡ transfer_past (ledger_of R.Share.shares self.now) order.new order.receiver.number order.energy order.price row }
    {
        let paid = transfer_fee(order.energy, row.contract.price, order.price);
        let giving = self.accounts.at(Plant::holding(row)).side;
        let taking = self.accounts.at(order.receiver).side;
        let held = self.contracts.plant_sum(order.receiver.number);
        !Energy::from_kwh(held.kwh() + order.energy.kwh()).within_limit()
            || !side_allows(giving, paid)
            || !side_allows(taking, reversed(paid))
    }

    // Answers the contract that gives.
    #[tactic(auto, unfolding(crate::specs::Calls::either_closed))]
    pub(crate) fn may_transfer(&self, order: Order) -> Result<Row, Refusal>
        ensures answer { declined_by result ≡ declined (ledger_of R.Share.shares self.now) (Call.Transfer order.new order.old order.receiver.number order.energy order.price) }
        ensures row { IfOk result (λ c. row_of order.old (ledger_of R.Share.shares self.now).rows ≡ Some c) }
    {
        self.enrolled(order.receiver)?;
        let row = self.contracts.find(order.old).ok_or(Refusal::NoContract)?;
        if self.contracts.find(order.new).is_some() {
            return Err(Refusal::AlreadyThere);
        }
        let giver = self.accounts.at(Plant::holding(row));
        if giver.closed || self.accounts.at(order.receiver).closed {
            return Err(Refusal::Closed);
        }
        if !self.trade_allowed(row, order.receiver) {
            return Err(Refusal::NotPermitted);
        }
        if row.contract.energy.kwh() < order.energy.kwh() {
            return Err(Refusal::TooMuch);
        }
        if self.contracts.is_full() {
            return Err(Refusal::Full);
        }
        if self.transfer_past(order, row) {
            return Err(Refusal::SumPastLimit);
        }
        Ok(row)
    }
}

impl<R: Share> Book<R> {
    // No compensation can be shared: a plant is unmetered, or nothing was generated.
    fn unshared(&self) -> bool
        ensures { result ≡ unshared (ledger_of R.Share.shares self.now) }
    {
        self.accounts.iter().any(Account::is_unmetered)
            || !self.accounts.iter().any(Account::has_generated)
    }

    // What comes before the shares of a compensation are known. Answers the amount.
    pub(crate) fn may_compensate(&self, plant: Plant, amount: Fen) -> Result<u64, Refusal>
        ensures { ByShares (ledger_of R.Share.shares self.now) plant.number amount result }
    {
        if !amount.within_compensation_limit() {
            return Err(Refusal::PastLimit);
        }
        self.enrolled(plant)?;
        if self.accounts.iter().any(|account| account.closed) {
            return Err(Refusal::Closed);
        }
        if self.unshared() {
            return Err(Refusal::NotReady);
        }
        Ok(amount.count() as u64)
    }
}

// The class that a number names, where the figures of an enrolment are within their limits.
#[tactic(auto, unfolding(crate::specs::Calls::enrol_within))]
fn class_within(plant: Plant, class: u8, approved: Price) -> Result<Class, Refusal>
    ensures { MatchResult result
        (λ k. (enrol_within plant.number class approved ≡ true) × (class_of class ≡ Some k))
        (λ why. (enrol_within plant.number class approved ≡ false) × (why ≡ Refusal.PastLimit)) }
{
    if !approved.within_limit() {
        return Err(Refusal::PastLimit);
    }
    Ok(Class::try_from(class)?)
}

// The rank that a number names, where the figures of a contract are within their limits.
// Kept: the figures of the call as they came, for one function; a struct of them would be taken apart at once.
#[tactic(auto, unfolding(crate::specs::Calls::enter_within))]
fn rank_within(
    number: u32,
    plant: Plant,
    rank: u8,
    energy: Energy,
    price: Price,
) -> Result<Rank, Refusal>
    ensures { MatchResult result
        (λ k. (enter_within number plant.number rank energy price ≡ true) × (rank_of rank ≡ Some k) × (energy.kwh ≤ 3000000000))
        (λ why. (enter_within number plant.number rank energy price ≡ false) × (why ≡ Refusal.PastLimit)) }
{
    if number == 0 || !energy.within_limit() || !price.within_limit() {
        return Err(Refusal::PastLimit);
    }
    Ok(Rank::try_from(rank)?)
}

// The fee that the receiver pays to the giver.
pub(crate) fn transfer_fee(energy: Energy, contract: Price, transfer: Price) -> Grains
    requires energy { energy.kwh ≤ 3000000000 }
    requires contract { contract.micro ≤ 1000000 }
    requires transfer { transfer.micro ≤ 1000000 }
    ensures value { result.count ≡ fee_of energy.kwh contract.micro transfer.micro }
    ensures bound { unsigned_abs result.count ≤ 300000000000000000 }
{
    fee(energy, contract, transfer).unwrap()
}

fn side_allows(side: Grains, amount: Grains) -> bool
    requires side { unsigned_abs side.count ≤ 300000000000000000 }
    requires amount { unsigned_abs amount.count ≤ 300000000000000000 }
    ensures { result ≡ side_balance (side.count +ℤ amount.count) }
{
    side.checked_add(amount).unwrap().within_side_limit()
}
