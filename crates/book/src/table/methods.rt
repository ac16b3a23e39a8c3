// What the contract table answers and does.
ghost use Rattle.std.specs.Prelude.{◌≡◌, ◌<◌, ◌≤◌, true, [], length, is_some, IfOk, nat_le};
ghost use Rattle.book.specs.Rows.{rising, row_of, place_of, with_row, with_energy, plant_sum, contracts_of};

use super::ContractTable;
use crate::row::Row;
use arrayvec::ArrayVec;
use market::{Contract, MOST_CONTRACTS};
use std::alloc::{AllocError, Global};
use units::Energy;

impl ContractTable {
    pub(crate) fn new(heap: Global) -> Result<ContractTable, AllocError>
        ensures { IfOk result (λ t. t.rows.items ≡ []) }
    {
        let rows = Vec::with_capacity(heap, MOST_CONTRACTS)?;
        Ok(ContractTable { rows })
    }

    pub(crate) fn is_full(&self) -> bool
        ensures { result ≡ nat_le 256 (length self.now.rows.items) }
    {
        self.rows.len() >= MOST_CONTRACTS
    }

    // How many contracts come before a number.
    fn place(&self, number: u32) -> usize
        requires { rising self.now.rows.items ≡ true }
        ensures { result ≡ place_of number self.now.rows.items }
    {
        self.rows.partition_point(|row| row.number < number)
    }

    pub(crate) fn find(&self, number: u32) -> Option<Row>
        requires { rising self.now.rows.items ≡ true }
        ensures { result ≡ row_of number self.now.rows.items }
    {
        let i = self.place(number);
        if i == self.rows.len() {
            return None;
        }
        let row = self.rows[i];
        if row.number == number {
            Some(row)
        } else {
            None
        }
    }

    // The energy of one plant's contracts.
    pub(crate) fn plant_sum(&self, plant: u8) -> Energy
        requires { plant_sum plant self.now.rows.items ≤ 3000000000 }
        ensures { result.kwh ≡ plant_sum plant self.now.rows.items }
    {
        // Kept: a loop. Tried as filter, map and sum, and as map and sum: an amendment of a full book's first contract took 1.6 times
        // as long as with the loop of old, or more.
        let rows = self.rows.as_slice();
        let mut sum = 0;
        for row in rows {
            if row.plant == plant {
                sum += row.contract.energy.kwh();
            }
        }
        Energy::from_kwh(sum)
    }

    // How many contracts a plant has.
    pub(crate) fn count(&self, plant: u8) -> usize
        ensures { result ≡ length (contracts_of plant self.now.rows.items) }
    {
        self.rows
            .iter()
            .map(|row| usize::from(row.plant == plant))
            .sum()
    }

    // Leaves a plant's contracts, in rising number, in a list that a caller has room for.
    pub(crate) fn gather(&self, plant: u8, contracts: &mut ArrayVec<Contract, MOST_CONTRACTS>)
        ensures { contracts.new.items ≡ contracts_of plant self.now.rows.items }
    {
        contracts.clear();
        for row in &self.rows {
            if row.plant == plant {
                contracts.push(row.contract);
            }
        }
    }

    // Cannot fail: room for 256 was reserved when the table was made.
    pub(crate) fn insert(&mut self, row: Row)
        requires room { length self.old.rows.items < 256 }
        requires rises { rising self.old.rows.items ≡ true }
        ensures { self.new.rows.items ≡ with_row row self.old.rows.items }
    {
        let i = self.place(row.number);
        let _ = self.rows.insert(i, row);
    }

    // Gives the contract of a number another energy.
    pub(crate) fn set_energy(&mut self, number: u32, energy: Energy)
        requires held { is_some (row_of number self.old.rows.items) ≡ true }
        requires rises { rising self.old.rows.items ≡ true }
        ensures { self.new.rows.items ≡ with_energy number energy self.old.rows.items }
    {
        let i = self.place(number);
        self.rows[i].set_energy(energy);
    }

    // Drops every contract and keeps the room.
    pub(crate) fn clear(&mut self)
        ensures { self.new.rows.items ≡ [] }
    {
        self.rows.clear();
    }
}
