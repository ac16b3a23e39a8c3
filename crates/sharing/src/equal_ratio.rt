ghost use Rattle.std.specs.Prelude.{◌≡◌, ◌*◌, ◌^◌, ◌<◌, length, sum, OnOk};
ghost use Rattle.sharing.specs.Places.{RatioPlaces};
ghost use Rattle.sharing.specs.Questions.{Asked, Shared};
ghost use Rattle.sharing.specs.Rules.{equal_ratio, running_floor};
ghost use Rattle.sharing.specs.Ratio.{ratio_fair};

use crate::admission::admit;
use crate::refusal::Refusal;
use crate::rule::Share;

// Each part is what the claims up to it get in proportion, rounded down, less what those before it got.
#[derive(Clone, Copy)]
pub struct EqualRatio;

impl Share for EqualRatio {
    ghost shares = { λ _. equal_ratio };

    ghost fair = { λ rule claims total h. ratio_fair claims total h };

    // Says besides what each part is by its place.
    fn share(&self, claims: &[u64], total: u64, parts: &mut [u64]) -> Result<(), Refusal>
        ensures shared { Shared equal_ratio claims.now total parts.old parts.new result }
        ensures places { OnOk result (RatioPlaces claims.now total parts.new) }
    {
        let claimed = admit(claims, total, parts.len())?;
        fill_by_ratio(claims, total, claimed, parts);
        Ok(())
    }
}

// What claims adding up to `so_far` get together, rounded down.
#[tactic(auto, unfolding(crate::specs::Rules::running_floor))]
fn running_floor(claimed: u64, total: u64, so_far: u64) -> u64
    requires { total * so_far < 2 ^ 64 }
    ensures { result ≡ running_floor claimed total so_far }
{
    if claimed == 0 {
        0
    } else {
        total * so_far / claimed
    }
}

#[tactic(auto, using(crate::specs::Floors::floor_start, crate::specs::Floors::floor_mono))]
fn fill_by_ratio(claims: &[u64], total: u64, claimed: u64, parts: &mut [u64])
    requires asked { Asked claims.now total (length parts.old) }
    requires whole { claimed ≡ sum claims.now }
    ensures { parts.new ≡ equal_ratio claims.now total }
{
    let mut so_far: u64 = 0;
    let mut given: u64 = 0;
    // Kept: by index. Tried with zip and iter_mut: a proof learns nothing of what is written through them. A loop over the
    // parts that asks an iterator of claims for the next reads no plainer.
    for (i, claim) in claims.iter().enumerate() {
        so_far += *claim;
        let due = running_floor(claimed, total, so_far);
        parts[i] = due - given;
        given = due;
    }
}
