// What settled energy is paid, and the answer of a settlement.
ghost use Rattle.std.specs.Prelude.{◌≡◌, ◌≤◌, length, pos, Some};
ghost use Rattle.units.specs.Fits.{grains};
ghost use Rattle.market.specs.Accounts.{Payable};
ghost use Rattle.market.specs.Figures.{amounts_of, amount_sum, worth_of, assessed_of, assessment_of, net_of, concluded};

use crate::figures::{Contract, PlantFigures, Settlement};
use crate::tariff::Tariff;
use units::{Energy, Grains, Hundredths};

// Pays each contract for its settled energy; answers what all are paid together.
pub(crate) fn pay_contracts(
    tariff: Tariff,
    contracts: &[Contract],
    energies: &[Energy],
    amounts: &mut [Grains],
) -> Option<Grains>
    requires energies { length energies.now ≡ length contracts.now }
    requires amounts { length amounts.old ≡ length contracts.now }
    requires fits { amount_sum tariff contracts.now energies.now ≤ 1000000000000000000 }
    ensures total { result ≡ Some (grains (pos (amount_sum tariff contracts.now energies.now))) }
    ensures after { amounts.new ≡ amounts_of tariff contracts.now energies.now }
{
    let mut total = Grains::from_count(0);
    // Kept: by index. Tried with zip and iter_mut: a proof learns nothing of what is written through them. A loop over what is
    // written that asks an iterator for the next reads no plainer.
    for (i, contract) in contracts.iter().enumerate() {
        let amount = energies[i].worth(tariff.contract_price(contract.price))?;
        amounts[i] = amount;
        total = total.checked_add(amount)?;
    }
    Some(total)
}

// What the answer of a settlement is made of.
#[derive(Clone, Copy)]
pub(crate) struct Account {
    pub(crate) plant: PlantFigures,
    pub(crate) tariff: Tariff,
    // The energy of all contracts, and what they are paid.
    pub(crate) contracted: Energy,
    pub(crate) paid: Grains,
    // The commissioning energy that was settled, and what is left of the metered energy.
    pub(crate) commissioning: Energy,
    pub(crate) over_generation: Energy,
    // What the aluminium works miss.
    pub(crate) missing: Energy,
    ghost payable: { Payable plant tariff contracted.kwh paid.count commissioning.kwh over_generation.kwh missing.kwh },
}

impl Account {
    // The deviation past a free part of two in a hundred of the contracted energy.
    fn assessed(self) -> Hundredths
        ensures { result.count ≡ assessed_of self.plant.metered.kwh self.contracted.kwh }
    {
        let metered = self.plant.metered;
        let contracted = self.contracted;
        let deviation = Energy::from_kwh(metered.kwh().abs_diff(contracted.kwh()));
        let free = 2 * contracted.kwh();
        let hundredths = deviation.hundredths().unwrap();
        Hundredths::from_count(hundredths.count().saturating_sub(free))
    }

    // What is held back of the net.
    fn assessment(self) -> Option<Grains>
        ensures { result ≡ Some (grains (pos (assessment_of self.tariff self.plant.metered.kwh self.contracted.kwh self.missing.kwh))) }
    {
        let price = if self.contracted.kwh() < self.plant.metered.kwh() {
            self.tariff.assessed_over
        } else {
            self.tariff.assessed_short
        };
        let deviation = self.assessed().worth(price)?;
        let missing = self.missing.worth(self.tariff.missing_aluminium)?;
        deviation.checked_add(missing)
    }

    // What energy is paid, less what is held back, with the side balance.
    fn net(self) -> Option<Grains>
        ensures { result ≡ Some (grains (net_of self.paid.count (worth_of self.commissioning.kwh self.tariff.commissioning.micro) (worth_of self.over_generation.kwh self.tariff.over_generation.micro) (assessment_of self.tariff self.plant.metered.kwh self.contracted.kwh self.missing.kwh) self.plant.side.count)) }
    {
        let commissioning = self.commissioning.worth(self.tariff.commissioning)?;
        let over_generation = self.over_generation.worth(self.tariff.over_generation)?;
        let energy_amounts = self
            .paid
            .checked_add(commissioning)?
            .checked_add(over_generation)?;
        let held_back = self.assessment()?;
        let net = energy_amounts.checked_sub(held_back)?;
        net.checked_add(self.plant.side)
    }

    // The answer of the settlement.
    pub(crate) fn settlement(self) -> Settlement
        ensures { result ≡ concluded self.plant self.tariff self.contracted.kwh self.paid.count self.commissioning.kwh self.over_generation.kwh self.missing.kwh }
    {
        let metered = self.plant.metered.kwh();
        let contracted = self.contracted.kwh();
        Settlement {
            commissioning: self.commissioning,
            over_generation: self.over_generation,
            over_deviation: Energy::from_kwh(metered.saturating_sub(contracted)),
            shortfall: Energy::from_kwh(contracted.saturating_sub(metered)),
            assessed: self.assessed(),
            net: self.net().unwrap(),
        }
    }
}
