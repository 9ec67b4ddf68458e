// The types of a sitting, and its rules: each computes from plain values what a move comes to.
#![tactic(auto)]

pub mod ballot;
pub mod board;
pub mod counts;
pub mod draft;
pub mod process;
pub mod ranges;
pub mod rules;
pub mod seat;
pub mod stage;
pub mod step;

pub use ballot::Ballot;
pub use board::{Board, Setting, Table};
pub use counts::{best_backing, from_senders};
pub use draft::Draft;
pub use process::Process;
pub use seat::{Delivery, Seat};
pub use stage::Stage;
pub use step::{Answer, Step};
