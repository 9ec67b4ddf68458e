// The rota by turns: view v is led by process v mod n.
ghost use Rattle.std.specs.Prelude.{◌≡◌, ◌%◌, ◌≤◌};
ghost use Rattle.std.proofs.Common.{rules};

use crate::membership::Committee;
use crate::rota::Rota;

#[derive(Clone, Copy)]
pub struct TurnRota {
    n: u8,
    ghost some: { 1 ≤ n },
}

impl TurnRota {
    // The rota of a committee's size.
    pub fn new(committee: &Committee) -> TurnRota
        ensures { result.n ≡ committee.now.n }
    {
        TurnRota { n: committee.n }
    }
}

impl Rota for TurnRota {
    ghost size = { λ r. r.n };

    ghost leader = { λ r v. v % r.n };

    ghost inside = { Prim.search rules };

    fn size(&self) -> u8 {
        self.n
    }

    fn leader(&self, view: u32) -> u8 {
        // The rest is below n, so the cast changes no number.
        (view % u32::from(self.n)) as u8
    }
}
