// The rota that goes round a list of leaders.
ghost use Rattle.std.specs.Prelude.{◌≡◌, ◌%◌, ◌<◌, ◌≤◌, vec_len, MatchOption, slice_index};
ghost use Rattle.committee.specs.Lists.{AllBelow, Listed};
ghost use Rattle.std.proofs.Common.{rules};

use crate::rota::Rota;

#[derive(Drop)]
pub struct ListRota {
    n: u8,
    entries: Vec<u8>,
    ghost some: { 1 ≤ vec_len entries },
    ghost few: { vec_len entries ≤ 31 },
    ghost inside: { AllBelow entries.items n },
}

impl ListRota {
    // A rota for n processes; none where the list is empty, longer than 31, or names a process that is n or above.
    pub fn new(n: u8, entries: Vec<u8>) -> Option<ListRota>
        ensures { MatchOption result (Listed entries.items n → ⊥) (λ c. Listed entries.items n × (c.n ≡ n) × (c.entries.items ≡ entries.items)) }
    {
        if entries.is_empty() || entries.len() > 31 || entries.iter().any(|entry| *entry >= n) {
            return None;
        }
        Some(ListRota { n, entries })
    }
}

impl Rota for ListRota {
    ghost size = { λ r. r.n };

    ghost leader = { λ r v. slice_index r.entries.items (v % vec_len r.entries) };

    ghost inside = { Prim.search rules };

    fn size(&self) -> u8 {
        self.n
    }

    fn leader(&self, view: u32) -> u8 {
        self.entries[view as usize % self.entries.len()]
    }
}
