// Reads a schedule, a string of bytes, as the moves of a sitting: fields first, then moves.
#![tactic(auto)]

mod contents;
pub mod field;
mod numbers;
pub mod reader;
pub mod reading;
mod tagged;
mod tags;

pub use field::{Field, field_at};
pub use reader::Reader;
pub use reading::{Stop, read};
