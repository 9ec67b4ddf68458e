// The wire: records that processes send, what each signs, claims and costs, and how it is printed.
#![tactic(auto)]

pub mod claim;
pub mod claims;
pub mod heeded;
pub mod heeding;
pub mod kind;
pub mod kinds;
pub mod lines;
pub mod ranges;
pub mod record;
mod share;
pub mod shares;
pub mod vouch;
pub mod vouches;
pub mod words;

pub use claim::Claim;
pub use heeded::Heeded;
pub use heeding::senders;
pub use kind::Kind;
pub use record::Record;
pub use vouch::Vouch;
