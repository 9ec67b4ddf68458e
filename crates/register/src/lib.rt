// Registers of who has signed what, and the count of distinct processes.
#![tactic(auto)]

pub mod attests;
pub mod distinct;
pub mod ledger;
pub mod pair;
pub mod roll;
mod row;
pub mod tally;

pub use attests::Attests;
pub use distinct::{count_distinct, distinct_processes};
pub use ledger::{Register, Unsigned};
pub use pair::{Pair, Statement};
pub use roll::Roll;
pub use tally::Tally;
