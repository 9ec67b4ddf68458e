// What each move comes to: the first cause of a refusal, or a step.
#![tactic(auto)]

mod arrival;
pub mod deliveries;
pub mod own_moves;
mod timer;

pub use deliveries::plan_deliver;
pub use own_moves::{plan_expire, plan_inject, plan_propose, plan_tick};
