// The month sheet: bytes that open a book and make its calls, read in one pass and loaded up to the first fault.
#![tactic(auto)]

mod fault;
mod item;
mod kind;
mod loading;
mod number;
mod section;

pub use fault::{Cause, Fault, Problem};
pub use kind::Kind;
pub use loading::{MOST_BYTES, load};
pub use section::{Section, read_section};
