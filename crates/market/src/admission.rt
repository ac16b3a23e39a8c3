// Which figures of a plant's month are declined.
ghost use Rattle.std.specs.Prelude.{◌≡◌, ◌^◌, ◌<◌, Some, None, IfOk, IfErr, sum_by};
ghost use Rattle.market.specs.Admitting.{plant_past, contract_past, any_past, any_not_held, settle_declined};
ghost use Rattle.market.specs.declared.figures.Contract.{Contract};

use crate::figures::{Contract, PlantFigures};
use crate::kinds::Class;
use crate::month::Month;
use crate::refusal::Refusal;
use units::Energy;

// A book holds at most so many contracts.
pub const MOST_CONTRACTS: usize = 256;

impl PlantFigures {
    // Whether a figure of the plant is outside its limits.
    #[tactic(auto, unfolding(crate::specs::Admitting::plant_past))]
    fn past_limit(self) -> bool
        ensures { result ≡ plant_past self }
    {
        !self.metered.within_limit()
            || !self.commissioning.within_limit()
            || !self.residential.within_limit()
            || !self.approved.within_limit()
            || !self.side.within_side_limit()
    }
}

impl Contract {
    // Whether a figure of the contract is outside its limits.
    fn past_limit(self) -> bool
        ensures { result ≡ contract_past self }
    {
        !self.energy.within_limit() || !self.price.within_limit()
    }
}

fn any_past_limit(contracts: &[Contract]) -> bool
    ensures { result ≡ any_past contracts.now }
{
    contracts.iter().any(|contract| contract.past_limit())
}

fn any_not_held(class: Class, contracts: &[Contract]) -> bool
    ensures { result ≡ any_not_held class contracts.now }
{
    contracts
        .iter()
        .any(|contract| !class.may_hold(contract.rank))
}

// The energy of all contracts.
pub(crate) fn total_energy(contracts: &[Contract]) -> Energy
    requires { sum_by (λ (c : Contract). c.energy.kwh) contracts.now < 2 ^ 64 }
    ensures { result.kwh ≡ sum_by (λ (c : Contract). c.energy.kwh) contracts.now }
{
    Energy::from_kwh(contracts.iter().map(|contract| contract.energy.kwh()).sum())
}

impl<'a> Month<'a> {
    // Declines figures that are no plant's month, and slices that are not as long as the contracts.
    pub(crate) fn admit(
        plant: PlantFigures,
        contracts: &'a [Contract],
        energies: usize,
        amounts: usize,
    ) -> Result<Month<'a>, Refusal>
        ensures declined { IfErr result (λ why. settle_declined plant contracts.now energies amounts ≡ Some why) }
        ensures admitted { IfOk result (λ month. settle_declined plant contracts.now energies amounts ≡ None) }
        ensures same { IfOk result (λ month. (month.plant ≡ plant) × (month.contracts.now ≡ contracts.now)) }
    {
        if plant.past_limit() || any_past_limit(contracts) {
            return Err(Refusal::PastLimit);
        }
        if any_not_held(plant.class, contracts) {
            return Err(Refusal::NotHeld);
        }
        if plant.commissioning.kwh() > plant.metered.kwh() {
            return Err(Refusal::AboveMeter);
        }
        if contracts.len() > MOST_CONTRACTS {
            return Err(Refusal::TooManyContracts);
        }
        if !total_energy(contracts).within_limit() {
            return Err(Refusal::ContractSum);
        }
        if energies != contracts.len() || amounts != contracts.len() {
            return Err(Refusal::SliceLength);
        }
        Ok(Month { plant, contracts })
    }
}
