// The listing of a schedule: what the board's programs print of it.
#![tactic(auto)]

pub mod lines;

pub use lines::{list, read_to_fault, write_fault};
