// The call of an item, from its head and its term.
ghost use Rattle.std.specs.Prelude.{◌≡◌, ◌+◌, ◌≤◌, length};
ghost use Rattle.sheet.specs.Formats.{call_of, energy, field, head_size, price, term_size};

use crate::kind::Kind;
use crate::number::bytes_at;
use book::Call;
use units::{Energy, Price};

pub(crate) fn call_of(kind: Kind, head: &[u8], term: &[u8]) -> Call
    requires head { length head.now ≡ head_size kind }
    requires term { length term.now ≡ term_size kind }
    ensures { result ≡ call_of kind head.now term.now }
{
    match kind {
        Kind::Enrols => Call::Enrol(byte_at(head, 0), byte_at(term, 0), price_at(term, 1)),
        Kind::Enters => Call::Enter(
            contract_at(head, 0),
            byte_at(term, 0),
            byte_at(term, 1),
            energy_at(term, 2),
            price_at(term, 10),
        ),
        Kind::Transfers => Call::Transfer(
            contract_at(head, 0),
            contract_at(head, 4),
            byte_at(term, 0),
            energy_at(term, 1),
            price_at(term, 9),
        ),
        Kind::Meters => Call::Meter(byte_at(head, 0), energy_at(term, 0), energy_at(term, 8)),
    }
}

// A section count, a month, or the number of a plant, a class or a rank.
pub(crate) fn byte_at(bytes: &[u8], place: usize) -> u8
    requires { place + 1 ≤ length bytes.now }
    ensures { result ≡ field place 1 bytes.now }
{
    bytes[place]
}

fn contract_at(bytes: &[u8], place: usize) -> u32
    requires { place + 4 ≤ length bytes.now }
    ensures { result ≡ field place 4 bytes.now }
{
    u32::from_le_bytes(bytes_at(bytes, place))
}

fn energy_at(bytes: &[u8], place: usize) -> Energy
    requires { place + 8 ≤ length bytes.now }
    ensures { result ≡ energy (field place 8 bytes.now) }
{
    Energy::from_kwh(u64::from_le_bytes(bytes_at(bytes, place)))
}

pub(crate) fn price_at(bytes: &[u8], place: usize) -> Price
    requires { place + 4 ≤ length bytes.now }
    ensures { result ≡ price (field place 4 bytes.now) }
{
    Price::from_micro_yuan(u32::from_le_bytes(bytes_at(bytes, place)))
}
