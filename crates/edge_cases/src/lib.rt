// The edge cases of the rule book, in one list, with one proof that the definitions answer them as the rule book does.
#![tactic(auto)]

ghost use Rattle.std.specs.Prelude.{◌≡◌, true, length};
ghost use Rattle.edge_cases.specs.Cases.{cases, all_hold};

pub mod moves;
pub mod sittings;

pub use moves::edge_cases_of_moves;
pub use sittings::{decided_value, epoch_reached};

// How many edge cases there are; each of them holds.
pub fn edge_cases() -> usize
    ensures count { result ≡ length cases }
    ensures hold { all_hold cases ≡ true }
{
    6
}
