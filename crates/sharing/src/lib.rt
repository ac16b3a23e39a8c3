// Sharing rules: how a total is divided over claims in whole units, exactly and always in the same way.
#![tactic(auto)]

mod admission;
mod equal_ratio;
mod in_order;
mod refusal;
mod rule;
mod theorems;

pub use admission::admit;
pub use equal_ratio::EqualRatio;
pub use in_order::InOrder;
pub use refusal::Refusal;
pub use rule::Share;
pub use theorems::settlement_shares_are_accepted;
