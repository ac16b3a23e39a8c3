// One contract as it stands in the book.
ghost use Rattle.std.specs.Prelude.{◌≡◌};
ghost use Rattle.book.specs.Rows.{at_energy};

use market::Contract;
use units::Energy;

#[derive(Clone, Copy)]
pub struct Row {
    pub number: u32,
    // The plant that holds the contract.
    pub plant: u8,
    pub contract: Contract,
}

impl Row {
    // Gives the contract another energy.
    pub(crate) fn set_energy(&mut self, energy: Energy)
        ensures { self.new ≡ at_energy energy self.old }
    {
        self.contract.energy = energy;
    }
}
