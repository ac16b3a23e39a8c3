// Calls on a month book as values: one made at a time, a whole list of them replayed, and a month that makes its calls itself.
#![tactic(auto)]

mod calls;
mod direct;
mod replaying;

pub use calls::make;
pub use direct::one_month;
pub use replaying::replay;
