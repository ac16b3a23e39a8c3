// Questions of a share as a person types them, and their answers step by step.
#![tactic(auto)]

mod chosen;
mod fault;
mod line;
mod stretch;
mod working;

pub use chosen::ChosenRule;
pub use fault::Fault;
pub use line::{Question, read_question};
pub use stretch::{Lines, split_line};
pub use working::{Failure, Step, claimed_in_all, work_out};
