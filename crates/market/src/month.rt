ghost use Rattle.std.proofs.Props.{props};
ghost use Rattle.market.specs.Admitting.{Sound};

use crate::figures::{Contract, PlantFigures};

// A plant's month that is not declined: its figures and its contracts are within all limits.
#[derive(Clone, Copy)]
pub(crate) struct Month<'a> {
    pub(crate) plant: PlantFigures,
    pub(crate) contracts: &'a [Contract],
    ghost sound: { Sound plant contracts.now } by { Prim.hlevel props },
}
