// What a schedule orders, what is wrong with one, and the text of both.
#![tactic(auto)]

pub mod faults;
pub mod orders;
pub mod text;

pub use faults::{Fault, Layer};
pub use orders::{Injection, Move, Opening, Placed};
