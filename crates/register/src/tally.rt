// The tally keeps a row of signers for each statement.
ghost use Rattle.std.specs.Prelude.{◌≡◌, ◌+◌, ◌<◌, ◌≤◌, true, false, [], length, IfOk, vec_len, vec_capacity};
ghost use Rattle.std.specs.List.{position};
ghost use Rattle.register.specs.Distinct.{Gathered};
ghost use Rattle.register.specs.Pairs.{same_statement, has_pair, Added};
ghost use Rattle.register.specs.Rows.{pairs_of, sound, add_to};
ghost use Rattle.register.specs.RowPairs.{distinct_pairs_lem, low_pairs};
ghost use Rattle.std.proofs.Common.{rules};

use crate::ledger::{Register, Unsigned, admits};
use crate::pair::{Pair, Statement};
use crate::row::Row;
use committee::ProcessSet;
use std::alloc::{AllocError, Global};

// A list and not a map: the pairs that a register means are a list, and a map tells no order of its keys. The memory for as
// many rows as there is room for pairs is taken when the tally is made.
#[derive(Drop)]
pub struct Tally {
    rows: Vec<Row>,
    // How many pairs the rows stand for.
    held: usize,
    ghost few: { held ≤ 1024 },
    ghost short: { vec_len rows ≤ held },
    ghost roomy: { 1024 ≤ vec_capacity rows },
    ghost counted: { held ≡ length (pairs_of rows.items) },
    ghost fine: { sound rows.items ≡ true },
}

// Where the row of a statement stands.
fn place(rows: &[Row], statement: Statement) -> Option<usize>
    ensures { result ≡ position (λ r. same_statement r.statement statement) rows.now }
{
    rows.iter().position(|row| row.is_of(statement))
}

// Adds a signer to the row of its statement, which is made where there is none.
fn mark(rows: &mut Vec<Row>, pair: Pair)
    requires { vec_len rows.old < vec_capacity rows.old }
    ensures items { rows.new.items ≡ add_to rows.old.items pair.process pair.statement }
    ensures len { vec_len rows.new ≤ vec_len rows.old + 1 }
    ensures capacity { vec_capacity rows.new ≡ vec_capacity rows.old }
{
    match place(rows.as_slice(), pair.statement) {
        Some(i) => {
            rows[i].signers = rows[i].signers.with(pair.process);
        }
        None => {
            // The empty set is written out, here and below: with its default the proofs did not close.
            let signers = ProcessSet { bits: 0 }.with(pair.process);
            rows.push_reserved(Row {
                statement: pair.statement,
                signers,
            });
        }
    }
}

impl Tally {
    pub fn new(heap: Global) -> Result<Tally, AllocError>
        ensures { IfOk result (λ v. pairs_of v.rows.items ≡ []) }
    {
        let rows = Vec::with_capacity(heap, Self::ROOM)?;
        Ok(Tally { rows, held: 0 })
    }

    // The signers of a statement.
    fn row(&self, statement: Statement) -> ProcessSet
        ensures { Gathered (λ p. has_pair (pairs_of self.now.rows.items) p statement) result }
    {
        match place(self.rows.as_slice(), statement) {
            Some(i) => self.rows[i].signers,
            None => ProcessSet { bits: 0 },
        }
    }

    // Puts in a new pair, for which there is room.
    fn put(&mut self, pair: Pair)
        requires low { pair.process ≤ 30 }
        requires fresh { has_pair (pairs_of self.old.rows.items) pair.process pair.statement ≡ false }
        requires space { self.old.held < 1024 }
        ensures { Added (pairs_of self.old.rows.items) (pairs_of self.new.rows.items) pair }
    {
        mark(&mut self.rows, pair);
        self.held += 1;
    }
}

impl Register for Tally {
    const ROOM: usize = 1024;

    ghost ROOM = { 1024 };

    ghost pairs = { λ r. pairs_of r.rows.items };

    ghost roomy = { Prim.search rules };

    ghost distinct = { λ r. distinct_pairs_lem r.rows.items r.fine };

    ghost low = { λ r. low_pairs r.rows.items };

    ghost within = { Prim.search rules };

    fn held(&self) -> usize {
        self.held
    }

    fn signers(&self, statement: Statement) -> u32 {
        self.row(statement).len()
    }

    fn has(&self, pair: Pair) -> bool {
        pair.process <= 30 && self.row(pair.statement).contains(pair.process)
    }

    fn sign(&mut self, pair: Pair) -> Result<(), Unsigned> {
        if admits(pair, self.has(pair), self.held() == Self::ROOM)? {
            self.put(pair);
        }
        Ok(())
    }
}
