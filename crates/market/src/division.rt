// The division of metered energy over the seven ranks.
ghost use Rattle.std.specs.Prelude.{◌≡◌, ◌^◌, ◌<◌, min, length, sum, nat_lt};
ghost use Rattle.std.specs.List.{list_any};
ghost use Rattle.units.specs.declared.energy.Energy.{Energy};
ghost use Rattle.market.specs.Dividing.{energy, energies, kwhs, divided, left_over, unfilled, divide_declined, Divided};
ghost use Rattle.sharing.specs.Declining.{answered};

use crate::refusal::Refusal;
use units::Energy;

// The number of ranks.
pub const RANKS: usize = 7;

fn any_past_limit(claims: &[Energy]) -> bool
    ensures { result ≡ list_any (λ (e : Energy). nat_lt 3000000000 e.kwh) claims.now }
{
    claims.iter().any(|claim| !claim.within_limit())
}

// What a claim gets of what is left.
fn part_of(left: u64, claim: Energy) -> Energy
    ensures { result.kwh ≡ min left claim.kwh }
{
    Energy::from_kwh(left.min(claim.kwh()))
}

// Fills each claim in turn with what is left; answers what is left over and what stays unfilled.
pub(crate) fn fill(metered: Energy, claims: &[Energy], parts: &mut [Energy]) -> (Energy, Energy)
    requires long { length parts.old ≡ length claims.now }
    requires fits { sum (kwhs claims.now) < 2 ^ 64 }
    ensures left { result.0 ≡ energy (left_over metered.kwh (kwhs claims.now)) }
    ensures missing { result.1 ≡ energy (unfilled metered.kwh (kwhs claims.now)) }
    ensures after { parts.new ≡ energies (divided metered.kwh (kwhs claims.now)) }
{
    let mut left = metered.kwh();
    let mut missing = 0;
    // Kept: by index. Tried with zip and iter_mut: a proof learns nothing of what is written through them. A loop over what is
    // written that asks an iterator for the next reads no plainer.
    for (i, claim) in claims.iter().enumerate() {
        let part = part_of(left, *claim);
        let taken = part.kwh();
        parts[i] = part;
        left -= taken;
        missing += claim.kwh() - taken;
    }
    (Energy::from_kwh(left), Energy::from_kwh(missing))
}

fn admit(metered: Energy, claims: &[Energy], places: usize) -> Result<(), Refusal>
    ensures { result ≡ answered (divide_declined metered.kwh (kwhs claims.now) places) tt }
{
    if claims.len() != RANKS || places != RANKS {
        return Err(Refusal::SliceLength);
    }
    if !metered.within_limit() || any_past_limit(claims) {
        return Err(Refusal::PastLimit);
    }
    Ok(())
}

// Divides the metered energy over seven claims, one for each rank, in their order. Answers what is left over of
// the meter and what stays unfilled of the claims. A declined call leaves the parts as they were.
// Kept: claims and parts are two slices, as callers hold them.
pub fn divide(
    metered: Energy,
    claims: &[Energy],
    parts: &mut [Energy],
) -> Result<(Energy, Energy), Refusal>
    ensures { Divided metered.kwh (kwhs claims.now) parts.old parts.new result }
{
    admit(metered, claims, parts.len())?;
    Ok(fill(metered, claims, parts))
}
