// The calls that change a book.
ghost use Rattle.std.specs.Prelude.{◌≡◌, ◌≤◌, IfOk};
ghost use Rattle.market.specs.Prices.{micro};
ghost use Rattle.book.specs.Calls.{Makes, told, told_paid, declined_by, open_within, open_declined, after_open, next_month};
ghost use Rattle.book.specs.Holds.{ledger_of};
ghost use Rattle.book.specs.Ledgers.{opened};

use super::Book;
use super::checks::transfer_fee;
use crate::account::{Reading, reversed};
use crate::accounts::AccountTable;
use crate::call::Call;
use crate::order::Order;
use crate::plant::Plant;
use crate::refusal::Refusal;
use crate::row::Row;
use crate::table::ContractTable;
use market::Contract;
use sharing::Share;
use std::alloc::{AllocError, Global};
use units::{Energy, Fen, Grains, Price};

impl<R: Share> Book<R> {
    // Kept: class and rank are numbers in the calls, since a number that names none is declined; an enum would ask more of callers.
    pub fn enrol(&mut self, plant: u8, class: u8, approved: Price) -> Result<(), Refusal>
        ensures { Makes (ledger_of R.Share.shares self.old) (Call.Enrol plant class approved) (ledger_of R.Share.shares self.new) (told result) }
    {
        let plant = Plant::try_from(plant)?;
        let class = self.may_enrol(plant, class, approved)?;
        self.accounts
            .change(plant, |account| account.enrol(class, approved));
        Ok(())
    }

    pub fn enter(
        &mut self,
        number: u32,
        plant: u8,
        rank: u8,
        energy: Energy,
        price: Price,
    ) -> Result<(), Refusal>
        ensures { Makes (ledger_of R.Share.shares self.old) (Call.Enter number plant rank energy price) (ledger_of R.Share.shares self.new) (told result) }
    {
        let plant = Plant::try_from(plant)?;
        let row = self.may_enter(number, plant, rank, energy, price)?;
        self.contracts.insert(row);
        Ok(())
    }

    // Gives one contract another energy, and moves no other figure.
    pub fn amend(&mut self, number: u32, energy: Energy) -> Result<(), Refusal>
        ensures { Makes (ledger_of R.Share.shares self.old) (Call.Amend number energy) (ledger_of R.Share.shares self.new) (told result) }
    {
        self.may_amend(number, energy)?;
        self.contracts.set_energy(number, energy);
        Ok(())
    }

    // Moves energy from a contract to a new contract of another plant, with the old rank and price.
    // The receiver pays the fee to the giver, or the giver to the receiver where it is negative.
    pub fn transfer(
        &mut self,
        new: u32,
        old: u32,
        receiver: u8,
        energy: Energy,
        price: Price,
    ) -> Result<(), Refusal>
        ensures { Makes (ledger_of R.Share.shares self.old) (Call.Transfer new old receiver energy price) (ledger_of R.Share.shares self.new) (told result) }
    {
        let order = Order::within(new, old, receiver, energy, price)?;
        let row = self.may_transfer(order)?;
        let giver = Plant::holding(row);
        let contract = row.contract;
        let paid = transfer_fee(order.energy, contract.price, order.price);
        let back = reversed(paid);
        let rest = Energy::from_kwh(contract.energy.kwh() - order.energy.kwh());
        self.contracts.set_energy(row.number, rest);
        self.contracts.insert(Row {
            number: order.new,
            plant: order.receiver.number,
            contract: Contract {
                energy: order.energy,
                ..contract
            },
        });
        self.accounts
            .change(giver, |account| account.move_side(paid));
        self.accounts
            .change(order.receiver, |account| account.move_side(back));
        Ok(())
    }

    // Sets what the meter showed; it may be repeated.
    pub fn meter(
        &mut self,
        plant: u8,
        metered: Energy,
        commissioning: Energy,
    ) -> Result<(), Refusal>
        ensures { Makes (ledger_of R.Share.shares self.old) (Call.Meter plant metered commissioning) (ledger_of R.Share.shares self.new) (told result) }
    {
        let plant = Plant::try_from(plant)?;
        let reading = Reading {
            metered,
            commissioning,
        };
        self.may_meter(plant, reading)?;
        self.accounts
            .change(plant, |account| account.meter(reading));
        Ok(())
    }

    // Pays the whole fen of net and carry, rounded down, once a month.
    pub fn issue(&mut self, plant: u8) -> Result<Fen, Refusal>
        ensures { Makes (ledger_of R.Share.shares self.old) (Call.Issue plant) (ledger_of R.Share.shares self.new) (told_paid result) }
    {
        let plant = Plant::try_from(plant)?;
        self.may_issue(plant)?;
        let net = self.net(plant);
        Ok(self.accounts.change(plant, |account| account.issue(net)))
    }

    // Adds the net now less the net at issue to the carry, and freezes the plant.
    pub fn close(&mut self, plant: u8) -> Result<(), Refusal>
        ensures { Makes (ledger_of R.Share.shares self.old) (Call.Close plant) (ledger_of R.Share.shares self.new) (told result) }
    {
        let plant = Plant::try_from(plant)?;
        let at_issue = self.may_close(plant)?;
        let net = self.net(plant);
        self.accounts
            .change(plant, |account| account.close(net, at_issue));
        Ok(())
    }

    // Moves to the next month. Plants and their carries stay; all else begins anew.
    pub fn turn(&mut self, residential: Price) -> Result<(), Refusal>
        ensures { Makes (ledger_of R.Share.shares self.old) (Call.Turn residential) (ledger_of R.Share.shares self.new) (told result) }
    {
        self.may_turn(residential)?;
        self.month = next_month(self.month);
        self.residential = residential;
        self.contracts.clear();
        self.accounts.turn();
        Ok(())
    }
}

impl<R: Share + Drop> Book<R> {
    // A book with nothing in it, in January, at residential price 0. Only making a book can want memory.
    pub fn new(heap: Global, rule: R) -> Result<Book<R>, AllocError>
        ensures { IfOk result (λ b. ledger_of R.Share.shares b ≡ opened 1 (micro 0) (R.Share.shares rule)) }
    {
        let contracts = ContractTable::new(heap)?;
        Ok(Book {
            rule,
            month: 1,
            residential: Price::from_micro_yuan(0),
            contracts,
            accounts: AccountTable::new(),
        })
    }

    // Starts the book anew. The room for contracts is kept.
    pub fn open(&mut self, month: u8, residential: Price, rule: R) -> Result<(), Refusal>
        ensures answer { declined_by result ≡ open_declined month residential }
        ensures after { ledger_of R.Share.shares self.new ≡ after_open (ledger_of R.Share.shares self.old) month residential (R.Share.shares rule) }
    {
        if !open_within(month, residential) {
            return Err(Refusal::PastLimit);
        }
        self.rule = rule;
        self.month = month;
        self.residential = residential;
        self.contracts.clear();
        self.accounts = AccountTable::new();
        Ok(())
    }
}

// Whether a book can be opened with these figures.
#[tactic(auto, unfolding(crate::specs::Calls::open_within))]
pub fn open_within(month: u8, residential: Price) -> bool
    ensures { result ≡ open_within month residential }
{
    (1..=12).contains(&month) && residential.within_limit()
}

fn next_month(month: u8) -> u8
    requires { month ≤ 12 }
    ensures { result ≡ next_month month }
{
    if month == 12 { 1 } else { month + 1 }
}
