// Plays a whole schedule: opens the board that it names, plays its moves, and prints what the board answers.
#![tactic(auto)]

pub mod sitting;

pub use sitting::schedules::play_schedule;
