// The roll keeps single pairs in the order of signing.
ghost use Rattle.std.specs.Prelude.{◌≡◌, ◌<◌, ◌≤◌, true, false, [], length, IfOk, vec_len, vec_capacity};
ghost use Rattle.register.specs.Pairs.{has_pair, distinct_pairs, Low, Added};
ghost use Rattle.std.proofs.Common.{rules};

use crate::distinct::count_distinct;
use crate::ledger::{Register, Unsigned, admits};
use crate::pair::{Pair, Statement};
use std::alloc::{AllocError, Global};

// A list and not a set: the order of signing stays, and a count of signers walks it all the same. The memory for all pairs is
// taken when the roll is made.
#[derive(Drop)]
pub struct Roll {
    pairs: Vec<Pair>,
    ghost few: { vec_len pairs ≤ 2048 },
    ghost roomy: { 2048 ≤ vec_capacity pairs },
    ghost distinct: { distinct_pairs pairs.items ≡ true },
    ghost low: { Low pairs.items },
}

impl Roll {
    pub fn new(heap: Global) -> Result<Roll, AllocError>
        ensures { IfOk result (λ v. v.pairs.items ≡ []) }
    {
        let pairs = Vec::with_capacity(heap, Self::ROOM)?;
        Ok(Roll { pairs })
    }

    // Puts in a new pair, for which there is room.
    fn put(&mut self, pair: Pair)
        requires low { pair.process ≤ 30 }
        requires fresh { has_pair self.old.pairs.items pair.process pair.statement ≡ false }
        requires space { length self.old.pairs.items < 2048 }
        ensures { Added self.old.pairs.items self.new.pairs.items pair }
    {
        self.pairs.push_reserved(pair);
    }
}

impl Register for Roll {
    const ROOM: usize = 2048;

    ghost ROOM = { 2048 };

    ghost pairs = { λ r. r.pairs.items };

    ghost roomy = { Prim.search rules };

    ghost distinct = { Prim.search rules };

    ghost low = { Prim.search rules };

    ghost within = { Prim.search rules };

    fn held(&self) -> usize {
        self.pairs.len()
    }

    fn signers(&self, statement: Statement) -> u32 {
        count_distinct(self.pairs.as_slice(), &statement)
    }

    fn has(&self, pair: Pair) -> bool {
        self.pairs.as_slice().contains(&pair)
    }

    fn sign(&mut self, pair: Pair) -> Result<(), Unsigned> {
        if admits(pair, self.has(pair), self.held() == Self::ROOM)? {
            self.put(pair);
        }
        Ok(())
    }
}
