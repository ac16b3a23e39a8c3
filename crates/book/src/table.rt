// The contract table: contracts in rising number, with room for 256 reserved when the table is made.
ghost use Rattle.std.specs.Prelude.{◌≤◌, vec_len, vec_capacity};

use crate::row::Row;

mod methods;

#[derive(Drop)]
pub struct ContractTable {
    // Kept: a map would want memory at each contract that is entered, and a call on a book cannot fail for memory.
    rows: Vec<Row>,
    ghost few: { vec_len rows ≤ 256 },
    ghost room: { 256 ≤ vec_capacity rows },
}
