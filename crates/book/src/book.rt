// A month book, with what every book keeps.
ghost use Rattle.book.specs.Ledgers.{bare_ledger};
ghost use Rattle.book.specs.Sound.{Sound};

use crate::accounts::AccountTable;
use crate::table::ContractTable;
use units::Price;

mod checks;
mod compensation;
mod moves;
mod questions;

pub use moves::open_within;

#[derive(Drop)]
pub struct Book<R> {
    rule: R,
    month: u8,
    residential: Price,
    contracts: ContractTable,
    accounts: AccountTable,
    ghost sound: { ∥ Sound (bare_ledger month residential contracts.rows.items accounts.rows) ∥₁ },
}
