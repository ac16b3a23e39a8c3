// The settlement of one plant's month.
ghost use Rattle.std.specs.Prelude.{◌≡◌, length};
ghost use Rattle.market.specs.Figures.{settled_energies, settled_amounts, settlement_of};
ghost use Rattle.market.specs.Laws.{figures_of, Settled};
ghost use Rattle.market.specs.Prices.{tariff_of};

use crate::admission::total_energy;
use crate::amounts::{Account, pay_contracts};
use crate::division::{RANKS, fill};
use crate::figures::{Contract, PlantFigures, Settlement};
use crate::kinds::Rank;
use crate::month::Month;
use crate::refusal::Refusal;
use crate::tariff::Tariff;
use sharing::Share;
use units::{Energy, Grains};

impl Month<'_> {
    // The plant's prices.
    fn tariff(&self) -> Tariff
        ensures { result ≡ tariff_of self.now.plant.class self.now.plant.season self.now.plant.residential self.now.plant.approved }
    {
        let plant = self.plant;
        Tariff::of(plant.class, plant.season, plant.residential, plant.approved)
    }

    // Fills the settled energy and the amount of each contract, and answers the plant's own figures.
    // Kept: the slices are parameters whose lengths each step requires. As fields of Month they left the caller's proof open.
    fn settle<R: Share>(
        &self,
        rule: &R,
        energies: &mut [Energy],
        amounts: &mut [Grains],
    ) -> Settlement
        requires energies { length energies.old ≡ length self.now.contracts.now }
        requires amounts { length amounts.old ≡ length self.now.contracts.now }
        ensures answer { result ≡ settlement_of (figures_of self.now.plant self.now.contracts.now (R.shares rule.now)) }
        ensures energies { energies.new ≡ settled_energies (figures_of self.now.plant self.now.contracts.now (R.shares rule.now)) }
        ensures amounts { amounts.new ≡ settled_amounts (figures_of self.now.plant self.now.contracts.now (R.shares rule.now)) }
    {
        let claims = self.claims();
        let mut settled = [Energy::from_kwh(0); RANKS];
        let (over_generation, _) = fill(self.plant.metered, &claims, &mut settled);
        self.share(rule, &settled, energies);
        let tariff = self.tariff();
        let paid = pay_contracts(tariff, self.contracts, energies, amounts).unwrap();
        let missing = claims[Rank::Aluminium.place()].kwh()
            - settled[Rank::Aluminium.place()].kwh();
        let account = Account {
            plant: self.plant,
            tariff,
            contracted: total_energy(self.contracts),
            paid,
            commissioning: settled[Rank::Commissioning.place()],
            over_generation,
            missing: Energy::from_kwh(missing),
        };
        account.settlement()
    }
}

// Settles a plant's month: fills the settled energy and the amount of each contract, in the contracts' order, and
// answers the figures that are the plant's own. A declined call leaves both slices as they were. Figures outside
// their limits are declined first; then a contract that the class may not hold, more commissioning energy than
// metered energy, too many contracts, too large a sum of theirs, and slices not as long as the contracts.
// Kept: two slices side by side, as callers hold them.
pub fn settle<R: Share>(
    rule: &R,
    plant: PlantFigures,
    contracts: &[Contract],
    energies: &mut [Energy],
    amounts: &mut [Grains],
) -> Result<Settlement, Refusal>
    ensures { Settled (figures_of plant contracts.now (R.shares rule.now)) energies.old energies.new amounts.old amounts.new result }
{
    let month = Month::admit(plant, contracts, energies.len(), amounts.len())?;
    Ok(month.settle(rule, energies, amounts))
}
