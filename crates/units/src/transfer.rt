ghost use Rattle.std.specs.Prelude.{◌≡◌};
ghost use Rattle.units.specs.Fees.{fee_of};
ghost use Rattle.units.specs.Fits.{grains_if};

use crate::energy::Energy;
use crate::money::Grains;
use crate::price::Price;

// The fee of a transfer, which the receiver pays to the giver, or the giver to the receiver where it is negative:
// the energy at the contract's price less the price of the transfer, where it fits.
pub fn fee(energy: Energy, contract: Price, transfer: Price) -> Option<Grains>
    ensures { result ≡ grains_if (fee_of energy.kwh contract.micro transfer.micro) }
{
    let hundredths = i128::from(energy.kwh()) * 100;
    let rate = i128::from(contract.micro_yuan()) - i128::from(transfer.micro_yuan());
    Grains::from_signed(hundredths * rate)
}
