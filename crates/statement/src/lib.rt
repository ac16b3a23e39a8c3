// The statement of a month sheet: a line for each metered plant, or the line of the first fault.
#![tactic(auto)]

mod issuing;
mod line;

pub use issuing::statement;
pub use line::{PlantLine, fault_line, plant_line};
