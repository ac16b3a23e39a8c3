// The lines of a statement.
ghost use Rattle.std.specs.Prelude.{◌≡◌, IfOk, string_bytes};
ghost use Rattle.statement.specs.Lines.{fault_text, plant_text};

use sheet::Fault;
use std::alloc::{AllocError, Global};
use units::{Energy, Fen};

// What a statement says of one plant.
#[derive(Clone, Copy)]
pub struct PlantLine {
    pub plant: u8,
    pub metered: Energy,
    pub over_generation: Energy,
    pub shortfall: Energy,
    pub payment: Fen,
}

// Plant, metered energy, over-generation, shortfall and payment in fen.
#[tactic(auto, unfolding(crate::specs::Lines::plant_text))]
pub fn plant_line(heap: Global, line: PlantLine) -> Result<String, AllocError>
    ensures { IfOk result (λ s. string_bytes s ≡ plant_text line) }
{
    format!(in heap;
        "{} {} {} {} {}\n",
        line.plant, line.metered, line.over_generation, line.shortfall, line.payment,
    )
}

// The word fault, then layer, number, offset and item.
#[tactic(auto, unfolding(crate::specs::Lines::fault_text))]
pub fn fault_line(heap: Global, fault: Fault) -> Result<String, AllocError>
    ensures { IfOk result (λ s. string_bytes s ≡ fault_text fault) }
{
    format!(in heap;
        "fault {} {} {} {}\n",
        fault.cause.layer(),
        fault.cause.number(),
        fault.offset,
        fault.item,
    )
}
