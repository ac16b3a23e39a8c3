// The quantities of a settlement, told apart: each is a number in a struct of its own, made, read and
// converted only by named functions.
// Kept: a struct for each quantity, alike but for name and number, since the project tells quantities apart; a generic one would
// need as many named functions.
#![tactic(auto)]

mod energy;
mod money;
mod payment;
mod price;
mod theorems;
mod transfer;

pub use energy::{Energy, Hundredths};
pub use money::{Fen, Grains};
pub use payment::{Payment, pay};
pub use price::Price;
pub use theorems::sums_fit;
pub use transfer::fee;
