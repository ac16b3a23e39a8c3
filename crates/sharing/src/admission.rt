ghost use Rattle.std.specs.Prelude.{◌≡◌, ◌≤◌, length, if◌then◌else◌, Some, None, sum};
ghost use Rattle.sharing.specs.Declining.{answered};
ghost use Rattle.sharing.specs.Questions.{any_above, declined};

use crate::refusal::Refusal;

const MOST_CLAIMS: usize = 256;

const MOST_CLAIMED: u64 = 300_000_000_000;

const MOST_PRODUCT: u64 = 9_000_000_000_000_000_000;

// The sum of the claims, or nothing where one of them is too large.
fn sum_of(claims: &[u64]) -> Option<u64>
    requires { length claims.now ≤ 256 }
    ensures { result ≡ (if any_above 300000000000 claims.now then None else Some (sum claims.now)) }
{
    claims.iter().try_fold(0, |so_far: u64, claim| {
        if *claim > MOST_CLAIMED {
            None
        } else {
            so_far.checked_add(*claim)
        }
    })
}

// The sum of the claims, where a share into so many places is not declined. A rule of one's own begins with it.
#[tactic(auto, using(crate::specs::Claims::above_sum), unfolding(crate::specs::Questions::declined))]
pub fn admit(claims: &[u64], total: u64, places: usize) -> Result<u64, Refusal>
    ensures { result ≡ answered (declined claims.now total places) (sum claims.now) }
{
    if claims.len() != places || claims.len() > MOST_CLAIMS {
        return Err(Refusal::Lengths);
    }
    // A claim that is too large is above zero, so it is no case of nothing claimed.
    let claimed = sum_of(claims).ok_or(Refusal::TooLarge)?;
    if claimed == 0 && total > 0 {
        return Err(Refusal::NothingClaimed);
    }
    total
        .checked_mul(claimed)
        .filter(|product| *product <= MOST_PRODUCT)
        .ok_or(Refusal::TooLarge)?;
    Ok(claimed)
}
