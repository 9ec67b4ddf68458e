// What can be asked of a board. Asking changes nothing.
#![tactic(auto)]

pub mod asking;
pub mod decisions;

pub use asking::{leader, line, place, words};
pub use decisions::decision;
