// The edge cases of single moves: a second list, with one proof.
ghost use Rattle.std.specs.Prelude.{◌≡◌, true, length};
ghost use Rattle.edge_cases.specs.Cases.{all_hold};
ghost use Rattle.edge_cases.specs.Moves.{move_cases};

// How many there are; each of them holds. A trait over the two lists would be longer than the two functions.
pub fn edge_cases_of_moves() -> usize
    ensures count { result ≡ length move_cases }
    ensures hold { all_hold move_cases ≡ true }
{
    4
}
