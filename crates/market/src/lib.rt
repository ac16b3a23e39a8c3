// The market's tables, the division of metered energy over the ranks, and the settlement of one plant's month.
#![tactic(auto)]

mod admission;
mod amounts;
mod division;
mod figures;
mod kinds;
mod month;
mod ranks;
mod refusal;
mod settling;
mod tariff;
mod theorems;

pub use admission::MOST_CONTRACTS;
pub use division::{RANKS, divide};
pub use figures::{Contract, PlantFigures, Settlement};
pub use kinds::{Class, Rank, Season, UnknownClass, UnknownRank};
pub use refusal::Refusal;
pub use settling::settle;
pub use tariff::Tariff;
pub use theorems::{examples_hold, numbers_agree, sound_figures_are_accepted};
