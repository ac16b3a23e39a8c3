ghost use Rattle.std.specs.Prelude.{◌≡◌, ◌≤◌, true, pos, is_some, IfSome, unsigned_abs};
ghost use Rattle.std.specs.Int.{int_div_euclid, int_rem_euclid};
ghost use Rattle.units.specs.Payments.{payment_if, Paid, most_net, most_carry};

use crate::money::{Fen, GRAINS_IN_FEN, Grains};

// What is paid of a net and a carry: whole fen, and the grains that are carried on.
#[derive(Clone, Copy, PartialEq, Eq, Debug)]
pub struct Payment {
    pub fen: Fen,
    pub carry: Grains,
}

// The whole fen in an amount, rounded down, below zero too.
fn whole_fen(due: Grains) -> Fen
    ensures { result.count ≡ int_div_euclid due.count (pos 1000000) }
{
    Fen::from_count(due.count().div_euclid(GRAINS_IN_FEN))
}

// What the whole fen leave of an amount: from nothing up to less than a fen.
fn rest(due: Grains) -> Grains
    ensures { result.count ≡ int_rem_euclid due.count (pos 1000000) }
{
    Grains::from_count(due.count().rem_euclid(GRAINS_IN_FEN))
}

// Pays a net with the carry from before; nothing where their sum does not fit, which no book's figures reach.
pub fn pay(net: Grains, carry: Grains) -> Option<Payment>
    ensures value { result ≡ payment_if net.count carry.count }
    ensures paid { IfSome result (Paid net.count carry.count) }
    ensures fits { unsigned_abs net.count ≤ most_net → unsigned_abs carry.count ≤ most_carry → is_some result ≡ true }
{
    let due = net.checked_add(carry)?;
    Some(Payment {
        fen: whole_fen(due),
        carry: rest(due),
    })
}
