ghost use Rattle.std.specs.Prelude.{ℕ, List};
ghost use Rattle.sharing.specs.Laws.{Fair};
ghost use Rattle.sharing.specs.Questions.{Accepted, Shared};

use crate::refusal::Refusal;

// A sharing rule. It has one question: what is each claim's part of a total?
pub trait Share {
    // The meaning of the rule. It is a function of the rule, the claims and the total,
    // so equal questions get equal parts, and asking changes nothing.
    ghost shares: { Self → List ℕ → ℕ → List ℕ };

    // Fills the parts, or says why the question is declined and leaves them as they were.
    // Kept: claims and total are two parameters, and claims and parts two slices, since callers hold them apart and a struct
    // would be made for one call.
    fn share(&self, claims: &[u64], total: u64, parts: &mut [u64]) -> Result<(), Refusal>
        ensures { Shared (shares self.now) claims.now total parts.old parts.new result };

    ghost fair: { (rule : Self) (claims : List ℕ) (total : ℕ) → Accepted claims total → Fair claims total (shares rule claims total) };
}
