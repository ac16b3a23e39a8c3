// Questions to a book, which change nothing.
ghost use Rattle.std.specs.Prelude.{◌≡◌, ◌≤◌, length, unsigned_abs};
ghost use Rattle.market.specs.Figures.{settled_energies, settled_amounts, settlement_of};
ghost use Rattle.units.specs.Payments.{most_net};
ghost use Rattle.book.specs.Calls.{settle_declined, declined_by, SettledIn, reading_of};
ghost use Rattle.book.specs.Holds.{ledger_of};
ghost use Rattle.book.specs.Ledgers.{plant_in, net_of_plant};
ghost use Rattle.book.specs.Rows.{contracts_of};

use super::Book;
use crate::account::{Enrolment, Reading};
use crate::plant::Plant;
use crate::refusal::Refusal;
use arrayvec::ArrayVec;
use market::{Class, MOST_CONTRACTS, PlantFigures, Season, Settlement, settle as settle_plant};
use sharing::Share;
use units::{Energy, Grains, Price};

impl<R: Share> Book<R> {
    // The figures of a plant's own that its settlement rests on.
    fn figures(&self, plant: Plant) -> PlantFigures
        ensures { result ≡ (plant_in (ledger_of R.Share.shares self.now) plant.number).plant }
    {
        let account = self.accounts.at(plant);
        let enrolment = account.enrolment.unwrap_or(Enrolment {
            class: Class::Hydro,
            approved: Price::from_micro_yuan(0),
        });
        let reading = account.reading.unwrap_or(Reading {
            metered: Energy::from_kwh(0),
            commissioning: Energy::from_kwh(0),
        });
        PlantFigures {
            class: enrolment.class,
            season: Season::of_month(self.month).unwrap_or(Season::Dry),
            residential: self.residential,
            approved: enrolment.approved,
            metered: reading.metered,
            commissioning: reading.commissioning,
            side: account.side,
        }
    }

    // The market's settlement never declines a book's figures.
    fn settlement(
        &self,
        plant: Plant,
        energies: &mut [Energy],
        amounts: &mut [Grains],
    ) -> Settlement
        requires energies { length energies.old ≡ length (contracts_of plant.number (ledger_of R.Share.shares self.now).rows) }
        requires amounts { length amounts.old ≡ length (contracts_of plant.number (ledger_of R.Share.shares self.now).rows) }
        ensures answer { result ≡ settlement_of (plant_in (ledger_of R.Share.shares self.now) plant.number) }
        ensures energies { energies.new ≡ settled_energies (plant_in (ledger_of R.Share.shares self.now) plant.number) }
        ensures amounts { amounts.new ≡ settled_amounts (plant_in (ledger_of R.Share.shares self.now) plant.number) }
    {
        let figures = self.figures(plant);
        let mut contracts = ArrayVec::new();
        self.contracts.gather(plant.number, &mut contracts);
        settle_plant(&self.rule, figures, contracts.as_slice(), energies, amounts).unwrap()
    }

    pub(crate) fn net(&self, plant: Plant) -> Grains
        ensures value { result.count ≡ net_of_plant (ledger_of R.Share.shares self.now) plant.number }
        ensures bound { unsigned_abs result.count ≤ most_net }
    {
        let count = self.contract_count(plant.number);
        // Kept: arrays cut to a length. Settling fills slices, and no call on a book may want heap.
        let mut energies = [Energy::from_kwh(0); MOST_CONTRACTS];
        let mut amounts = [Grains::from_count(0); MOST_CONTRACTS];
        let energies = &mut energies[..count];
        let amounts = &mut amounts[..count];
        self.settlement(plant, energies, amounts).net
    }

    // What the meter of a plant showed, where there is such a plant and it is metered.
    pub fn reading(&self, plant: u8) -> Option<Reading>
        ensures { result ≡ reading_of (ledger_of R.Share.shares self.now) plant }
    {
        let plant = Plant::try_from(plant).ok()?;
        self.accounts.at(plant).reading
    }

    // How many contracts a plant has.
    pub fn contract_count(&self, plant: u8) -> usize
        ensures { result ≡ length (contracts_of plant (ledger_of R.Share.shares self.now).rows) }
    {
        self.contracts.count(plant)
    }

    fn may_settle(&self, plant: Plant, energies: usize, amounts: usize) -> Result<(), Refusal>
        ensures { declined_by result ≡ settle_declined (ledger_of R.Share.shares self.now) plant.number energies amounts }
    {
        let account = self.enrolled(plant)?;
        if account.reading.is_none() {
            return Err(Refusal::NotReady);
        }
        let count = self.contract_count(plant.number);
        if energies != count || amounts != count {
            return Err(Refusal::SliceLength);
        }
        Ok(())
    }

    // Settles a plant: fills the settled energy and the amount of each of its contracts, by rising contract number, and answers the rest.
    // It works on closed plants too. A declined question leaves both slices as they were.
    // Kept: two slices side by side, as callers hold them.
    pub fn settle(
        &self,
        plant: u8,
        energies: &mut [Energy],
        amounts: &mut [Grains],
    ) -> Result<Settlement, Refusal>
        ensures { SettledIn (ledger_of R.Share.shares self.now) plant energies.old energies.new amounts.old amounts.new result }
    {
        let plant = Plant::try_from(plant)?;
        self.may_settle(plant, energies.len(), amounts.len())?;
        Ok(self.settlement(plant, energies, amounts))
    }
}
