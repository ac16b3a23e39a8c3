// What the ranks claim, and how a rank's energy is shared over its contracts.
ghost use Rattle.std.specs.Prelude.{◌≡◌, ◌-◌, ◌^◌, ◌<◌, ◌≤◌, length, cond, sum, sum_by, slice_index};
ghost use Rattle.market.specs.declared.figures.Contract.{Contract};
ghost use Rattle.market.specs.Dealing.{laid, laid_all, Covered};
ghost use Rattle.market.specs.Dividing.{kwhs};
ghost use Rattle.market.specs.Figures.{of_rank, claims_of, rank_claims};
ghost use Rattle.market.specs.Kinds.{rank_number};

use crate::admission::MOST_CONTRACTS;
use crate::division::RANKS;
use crate::figures::Contract;
use crate::kinds::Rank;
use crate::month::Month;
use arrayvec::ArrayVec;
use sharing::Share;
use units::Energy;

// The ranks that contracts are of.
const CONTRACTED: [Rank; 6] = [
    Rank::InterProvincePriority,
    Rank::InterProvinceMarket,
    Rank::Retained,
    Rank::Aluminium,
    Rank::InProvincePriority,
    Rank::InProvinceMarket,
];

impl Rank {
    // The rank's index in an array with a place for each rank.
    pub(crate) fn place(self) -> usize
        ensures value { result ≡ rank_number self - 1 }
        ensures bound { result < 7 }
    {
        usize::from(u8::from(self) - 1)
    }
}

impl Contract {
    fn is_of(self, rank: Rank) -> bool
        ensures { result ≡ of_rank (rank_number rank) self }
    {
        self.rank == rank
    }

    // What the contract adds to the claims of a rank, in kWh.
    fn kwh_in(self, rank: Rank) -> u64
        ensures { result ≡ cond (of_rank (rank_number rank) self) self.energy.kwh 0 }
    {
        let kwh = self.energy.kwh();
        if self.is_of(rank) { kwh } else { 0 }
    }
}

// The energy of a rank's contracts, in kWh.
fn rank_energy(contracts: &[Contract], rank: Rank) -> u64
    requires { sum_by (λ (c : Contract). cond (of_rank (rank_number rank) c) c.energy.kwh 0) contracts.now < 2 ^ 64 }
    ensures { result ≡ sum_by (λ (c : Contract). cond (of_rank (rank_number rank) c) c.energy.kwh 0) contracts.now }
{
    contracts.iter().map(|contract| contract.kwh_in(rank)).sum()
}

// Lays the parts of a rank out over its contracts, one after the other.
fn lay_out(contracts: &[Contract], rank: Rank, parts: &[u64], energies: &mut [Energy])
    requires parts { length parts.now ≡ length (claims_of (rank_number rank) contracts.now) }
    requires energies { length energies.old ≡ length contracts.now }
    ensures { energies.new ≡ laid (rank_number rank) contracts.now parts.now energies.old }
{
    let mut parts = parts.iter();
    // Kept: by index. Tried with zip and iter_mut: a proof learns nothing of what is written through them. A loop over what is
    // written that asks an iterator for the next reads no plainer.
    for (i, contract) in contracts.iter().enumerate() {
        if contract.is_of(rank) {
            energies[i] = Energy::from_kwh(*parts.next().unwrap());
        }
    }
}

impl Month<'_> {
    // What the contracts of a rank claim together.
    fn claim_in(&self, rank: Rank) -> Energy
        ensures { result.kwh ≡ sum (claims_of (rank_number rank) self.now.contracts.now) }
    {
        Energy::from_kwh(rank_energy(self.contracts, rank))
    }

    // What each rank claims. Commissioning energy stands in for as much in-province priority energy.
    pub(crate) fn claims(&self) -> [Energy; RANKS]
        ensures { kwhs result ≡ rank_claims self.now.plant.commissioning.kwh self.now.contracts.now }
    {
        let commissioning = self.plant.commissioning;
        let priority = self.claim_in(Rank::InProvincePriority).kwh();
        [
            self.claim_in(Rank::InterProvincePriority),
            self.claim_in(Rank::InterProvinceMarket),
            commissioning,
            self.claim_in(Rank::Retained),
            self.claim_in(Rank::Aluminium),
            Energy::from_kwh(priority.saturating_sub(commissioning.kwh())),
            self.claim_in(Rank::InProvinceMarket),
        ]
    }

    // Leaves the energies of a rank's contracts in the claims.
    fn gather(&self, rank: Rank, claims: &mut ArrayVec<u64, MOST_CONTRACTS>)
        ensures { claims.new.items ≡ claims_of (rank_number rank) self.now.contracts.now }
    {
        claims.clear();
        for contract in self.contracts {
            if contract.is_of(rank) {
                claims.push(contract.energy.kwh());
            }
        }
    }

    // Shares what each rank settles over its contracts. The rule never declines it: there are no more than 256
    // contracts, and there is no more to share than a rank's contracts claim.
    pub(crate) fn share<R: Share>(
        &self,
        rule: &R,
        settled: &[Energy; RANKS],
        energies: &mut [Energy],
    )
        requires covered { Covered self.now.contracts.now (kwhs settled.now) }
        requires energies { length energies.old ≡ length self.now.contracts.now }
        ensures { energies.new ≡ laid_all (λ n. R.shares rule.now (claims_of n self.now.contracts.now) (slice_index (kwhs settled.now) (n - 1))) self.now.contracts.now energies.old }
    {
        let mut claims = ArrayVec::new();
        // Kept: an array cut to a length. The rule fills a slice, and a settlement may want no heap.
        let mut room = [0; MOST_CONTRACTS];
        for rank in CONTRACTED {
            self.gather(rank, &mut claims);
            let parts = &mut room[..claims.len()];
            rule.share(&claims, settled[rank.place()].kwh(), parts)
                .unwrap();
            lay_out(self.contracts, rank, parts, energies);
        }
    }
}
