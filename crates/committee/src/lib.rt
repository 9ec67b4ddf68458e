// The committee: who sits in it, how many make a quorum, how views fall into epochs, and who leads.
#![tactic(auto)]

pub mod list_rota;
pub mod membership;
pub mod rota;
pub mod sets;
pub mod thresholds;
pub mod turn_rota;
pub mod views;

pub use list_rota::ListRota;
pub use membership::Committee;
pub use rota::Rota;
pub use sets::ProcessSet;
pub use turn_rota::TurnRota;
