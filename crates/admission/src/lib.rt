// What every move is tested for: the board and the process, whether a record is taken, and room for what is appended.
#![tactic(auto)]

pub mod scene;
pub mod seating;
pub mod taking;

pub use scene::Scene;
pub use seating::{find_order, find_room, in_order};
pub use taking::{admit, is_stale};
