// Calls and answers in words.
use book::{Answer, Call};
use market::Settlement;
use std::io;
use units::{Energy, Grains};

// Says which call is made.
// Kept: the words are this program's own, and a Display of Call would be the library's.
pub fn show_call(rt: &HostRuntime, call: &Call) -> io::Result<()> {
    match *call {
        Call::Enrol(plant, class, approved) => {
            println!(rt; "enrol plant {plant} of class {class} at the approved price {approved}")
        }
        Call::Enter(number, plant, rank, energy, price) => {
            println!(rt;
                "enter contract {number} of plant {plant}: rank {rank}, {energy} kWh at {price}"
            )
        }
        Call::Amend(number, energy) => println!(rt; "amend contract {number} to {energy} kWh"),
        Call::Transfer(new, old, receiver, energy, price) => {
            println!(rt;
                "transfer {energy} kWh of contract {old} to contract {new} of plant {receiver} at {price}"
            )
        }
        Call::Meter(plant, metered, commissioning) => {
            println!(rt;
                "meter plant {plant}: {metered} kWh, of them {commissioning} from commissioning"
            )
        }
        Call::Compensate(plant, amount) => {
            println!(rt; "compensate plant {plant} with {amount} fen")
        }
        Call::Issue(plant) => println!(rt; "issue the statement of plant {plant}"),
        Call::Close(plant) => println!(rt; "close plant {plant}"),
        Call::Turn(price) => {
            println!(rt; "turn to the next month at the residential price {price}")
        }
    }
}

pub fn show_answer(rt: &HostRuntime, answer: Answer) -> io::Result<()> {
    match answer {
        Ok(None) => println!(rt; "  done"),
        Ok(Some(fen)) => println!(rt; "  paid {fen} fen"),
        Err(refusal) => println!(rt; "  declined, {refusal}"),
    }
}

// What each contract settles, by rising number, and the rest of the settlement.
pub fn show_settlement(
    rt: &HostRuntime,
    energies: &[Energy],
    amounts: &[Grains],
    settlement: &Settlement,
) -> io::Result<()> {
    for (energy, amount) in energies.iter().zip(amounts) {
        println!(rt; "  a contract settles {energy} kWh for {amount} grains")?;
    }
    println!(rt;
        "  commissioning {} kWh, over-generation {} kWh",
        settlement.commissioning, settlement.over_generation,
    )?;
    println!(rt;
        "  deviation {} kWh above, {} kWh below; {} hundredths of a kWh assessed",
        settlement.over_deviation, settlement.shortfall, settlement.assessed,
    )?;
    println!(rt; "  net {} grains", settlement.net)
}
