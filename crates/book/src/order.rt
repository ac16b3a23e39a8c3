// What a transfer is asked to move.
ghost use Rattle.std.specs.Prelude.{◌≡◌, true};
ghost use Rattle.book.specs.Calls.{transfer_within};

use crate::plant::Plant;
use crate::refusal::Refusal;
use units::{Energy, Price};

// Energy of the contract `old` goes to the new contract `new` of the receiver, at a price of the transfer.
#[derive(Clone, Copy)]
pub(crate) struct Order {
    pub(crate) new: u32,
    pub(crate) old: u32,
    pub(crate) receiver: Plant,
    pub(crate) energy: Energy,
    pub(crate) price: Price,
    ghost within: { transfer_within new old receiver.number energy price ≡ true },
}

impl Order {
    ghost use Rattle.book.specs.Orders.{NamesOrder};

    // Declined where a figure is outside its limits, or where nothing is moved.
    #[tactic(auto, unfolding(crate::specs::Calls::transfer_within))]
    pub(crate) fn within(
        new: u32,
        old: u32,
        receiver: u8,
        energy: Energy,
        price: Price,
    ) -> Result<Order, Refusal>
        ensures { NamesOrder new old receiver energy price result }
    {
        let receiver = Plant::try_from(receiver)?;
        if new == 0
            || old == 0
            || energy.kwh() == 0
            || !energy.within_limit()
            || !price.within_limit()
        {
            return Err(Refusal::PastLimit);
        }
        Ok(Order {
            new,
            old,
            receiver,
            energy,
            price,
        })
    }
}
