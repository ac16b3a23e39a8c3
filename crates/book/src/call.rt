// The calls that change a book, and what they answer, as values.
use crate::refusal::Refusal;
use units::{Energy, Fen, Price};

// Kept: class and rank are numbers, as in the calls of a book, which decline a number that names none.
#[derive(Clone, Copy)]
pub enum Call {
    // Plant, class, approved price.
    Enrol(u8, u8, Price),
    // Contract, plant, rank, energy, price.
    Enter(u32, u8, u8, Energy, Price),
    // Contract, its new energy.
    Amend(u32, Energy),
    // New contract, old contract, receiver, energy, price of the transfer.
    Transfer(u32, u32, u8, Energy, Price),
    // Plant, metered energy, commissioning energy.
    Meter(u8, Energy, Energy),
    // Plant, amount.
    Compensate(u8, Fen),
    Issue(u8),
    Close(u8),
    // The next month's residential price.
    Turn(Price),
}

// What a call answers: the payment, where it is one that pays, or why it was declined.
pub type Answer = Result<Option<Fen>, Refusal>;
