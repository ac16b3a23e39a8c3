ghost use Rattle.std.specs.Prelude.{◌≡◌};
ghost use Rattle.std.specs.Option.{ok_or};
ghost use Rattle.question.specs.Naming.{shares_by, rule_named};
ghost use Rattle.sharing.specs.Order.{order_fair};
ghost use Rattle.sharing.specs.Ratio.{ratio_fair};
ghost use Rattle.question.specs.declared.chosen.ChosenRule.TheVariants.{EqualRatio, InOrder};
ghost use Rattle.question.specs.declared.fault.Fault.TheVariants.{UnknownRule};

use crate::fault::Fault;
use sharing::{EqualRatio, InOrder, Refusal, Share};
use std::fmt;

// A rule chosen by its name.
#[derive(Clone, Copy, PartialEq, Eq, Debug)]
pub enum ChosenRule {
    EqualRatio,
    InOrder,
}

// The rule that a word names: `equal-ratio` or `in-order`.
#[tactic(auto, unfolding(crate::specs::Naming::rule_named))]
impl TryFrom<&[u8]> for ChosenRule {
    type Error = Fault;

    ghost try_from_gives = { λ word r. r ≡ ok_or (rule_named word.now) UnknownRule };

    fn try_from(word: &[u8]) -> Result<ChosenRule, Fault> {
        match word {
            b"equal-ratio" => Ok(ChosenRule::EqualRatio),
            b"in-order" => Ok(ChosenRule::InOrder),
            _ => Err(Fault::UnknownRule),
        }
    }
}

impl Share for ChosenRule {
    ghost shares = { shares_by };

    ghost fair = { elim [
      | EqualRatio ↦ λ claims total h. ratio_fair claims total h
      | InOrder ↦ λ claims total h. order_fair claims total h
    ] };

    fn share(&self, claims: &[u64], total: u64, parts: &mut [u64]) -> Result<(), Refusal> {
        match self {
            ChosenRule::EqualRatio => EqualRatio.share(claims, total, parts),
            ChosenRule::InOrder => InOrder.share(claims, total, parts),
        }
    }
}

impl fmt::Display for ChosenRule {
    fn fmt<W: fmt::Write>(&self, f: &mut fmt::Formatter<W>) -> fmt::Result {
        match self {
            ChosenRule::EqualRatio => write!(f, "by equal ratio"),
            ChosenRule::InOrder => write!(f, "in order"),
        }
    }
}
