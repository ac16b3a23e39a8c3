ghost use Rattle.std.specs.Prelude.{◌≡◌, length, sum, OnOk};
ghost use Rattle.sharing.specs.Places.{OrderPlaces};
ghost use Rattle.sharing.specs.Questions.{Shared};
ghost use Rattle.sharing.specs.Rules.{in_order};
ghost use Rattle.sharing.specs.Order.{order_fair};

use crate::admission::admit;
use crate::refusal::Refusal;
use crate::rule::Share;

// Claims are filled from the first on until the total is used up; the last claim above zero gets all that is left.
#[derive(Clone, Copy)]
pub struct InOrder;

impl Share for InOrder {
    ghost shares = { λ _. in_order };

    ghost fair = { λ rule claims total h. order_fair claims total h };

    // Says besides what each part is by its place.
    fn share(&self, claims: &[u64], total: u64, parts: &mut [u64]) -> Result<(), Refusal>
        ensures shared { Shared in_order claims.now total parts.old parts.new result }
        ensures places { OnOk result (OrderPlaces claims.now total parts.new) }
    {
        // Kept: EqualRatio has the same two steps. A common function would take the filling as a closure, whose
        // contract is longer than these lines, and the trait's own method would lose the clause on places.
        let claimed = admit(claims, total, parts.len())?;
        fill_in_order(claims, total, claimed, parts);
        Ok(())
    }
}

fn fill_in_order(claims: &[u64], total: u64, claimed: u64, parts: &mut [u64])
    requires long { length claims.now ≡ length parts.old }
    requires whole { claimed ≡ sum claims.now }
    ensures { parts.new ≡ in_order claims.now total }
{
    let mut left = total;
    let mut rest = claimed;
    // Kept: by index. Tried with zip and iter_mut: a proof learns nothing of what is written through them. A loop over the
    // parts that asks an iterator of claims for the next reads no plainer.
    for (i, claim) in claims.iter().enumerate() {
        rest -= *claim;
        let part = if *claim > 0 && rest == 0 {
            left
        } else {
            left.min(*claim)
        };
        parts[i] = part;
        left -= part;
    }
}
