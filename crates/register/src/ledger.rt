// What a register is: a set of pairs of a process and a statement, with room for a fixed number of them.
ghost use Rattle.std.specs.Prelude.{◌≡◌, ℕ, ◌≤◌, true, List, length};
ghost use Rattle.register.specs.declared.pair.Pair.{Pair};
ghost use Rattle.register.specs.Pairs.{same_statement, has_pair, distinct_pairs, Low, signers_of, Admits, Signs};

use crate::attests::Attests;
use crate::pair::{Pair, Statement};

// Why a pair is not signed.
#[derive(Clone, Copy, Debug, PartialEq, Eq)]
pub enum Unsigned {
    ProcessAbove30,
    Full,
}

pub trait Register {
    // How many pairs there is room for.
    const ROOM: usize;

    // The same number, as clauses name it.
    ghost ROOM: { ℕ };

    // A list in which no pair stands twice: it stands for the set.
    ghost pairs: { Self → List Pair };

    // How many pairs there are.
    fn held(&self) -> usize
        ensures { result ≡ length (pairs self.now) };

    // How many processes are paired with a statement.
    fn signers(&self, statement: Statement) -> u32
        ensures { result ≡ signers_of (pairs self.now) statement };

    fn has(&self, pair: Pair) -> bool
        ensures { result ≡ has_pair (pairs self.now) pair.process pair.statement };

    // Puts the pair in; one that is held already is accepted without change. Each register writes it over its own `put`: a body
    // here would need a public method that asks something of its caller.
    fn sign(&mut self, pair: Pair) -> Result<(), Unsigned>
        ensures { Signs ROOM (pairs self.old) pair (pairs self.new) result };

    ghost roomy: { 64 ≤ ROOM };

    ghost distinct: { (r : Self) → distinct_pairs (pairs r) ≡ true };

    ghost low: { (r : Self) → Low (pairs r) };

    ghost within: { (r : Self) → length (pairs r) ≤ ROOM };
}

// Whether a pair is to be put in, by whether it is held already and whether there is no room.
pub(crate) fn admits(pair: Pair, held: bool, full: bool) -> Result<bool, Unsigned>
    ensures { Admits pair.process held full result }
{
    if pair.process > 30 {
        return Err(Unsigned::ProcessAbove30);
    }
    if held {
        return Ok(false);
    }
    if full {
        return Err(Unsigned::Full);
    }
    Ok(true)
}

impl Attests<Statement> for Pair {
    ghost process = { λ x. x.process };

    ghost counts = { λ x s. same_statement x.statement s };

    fn process(&self) -> u8 {
        self.process
    }

    fn counts(&self, query: &Statement) -> bool {
        self.statement == *query
    }
}
