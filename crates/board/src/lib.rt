// The board: the six calls of a sitting, and what can be asked of it.
#![tactic(auto)]

pub mod carrying;

pub use carrying::moves::{deliver, expire, inject, propose, tick};
pub use opening::open;
pub use queries::{decision, leader, line, place, words};
