// The month book: contracts, accounts, and every call that changes them.
#![tactic(auto)]

mod account;
mod accounts;
mod book;
mod call;
mod order;
mod plant;
mod refusal;
mod row;
mod table;
mod theorems;

pub use account::{Account, Enrolment, Reading};
pub use accounts::{AccountTable, PLANTS};
pub use book::{Book, open_within};
pub use call::{Answer, Call};
pub use refusal::Refusal;
pub use row::Row;
pub use table::ContractTable;
pub use theorems::run_law_stands;
