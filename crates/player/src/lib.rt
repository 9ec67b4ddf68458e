// Plays moves on an open board, one after another, and writes what the board answers.
#![tactic(auto)]

pub mod making;
pub mod outcome;
pub mod processes;
pub mod text;

pub use making::playing::play;
pub use outcome::Outcome;
pub use processes::write_processes;
