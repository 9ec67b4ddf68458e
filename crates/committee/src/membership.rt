// A committee of n = 3f + 1 processes, of which at most f are faulty.
ghost use Rattle.std.specs.Prelude.{◌≡◌, ◌+◌, ◌*◌, ◌^◌, ◌<◌, ◌≤◌, true, false, MatchResult, count_ones};
ghost use Rattle.refusals.specs.declared.causes.Refusal.TheVariants.{NotACommittee};
ghost use Rattle.committee.specs.Membership.{is_committee, size_for};

use crate::sets::ProcessSet;
use refusals::Refusal;

// The fields are public: whoever writes one owes the facts below it.
#[derive(Clone, Copy, Debug, PartialEq, Eq)]
pub struct Committee {
    pub n: u8,
    pub f: u8,
    pub faulty: ProcessSet,
    ghost low: { 1 ≤ f },
    ghost high: { f ≤ 10 },
    ghost whole: { n ≡ size_for f },
    ghost inside: { faulty.bits < 2 ^ n },
    ghost few: { count_ones faulty.bits ≤ f },
}

impl Committee {
    // Processes 0 to 3f, with the faulty ones among them; or the refusal where the numbers make no committee.
    pub fn new(f: u8, faulty: ProcessSet) -> Result<Committee, Refusal>
        ensures { MatchResult result
            (λ c. (is_committee f faulty.bits ≡ true) × (c.n ≡ size_for f) × (c.f ≡ f) × (c.faulty ≡ faulty))
            (λ e. (is_committee f faulty.bits ≡ false) × (e ≡ NotACommittee)) }
    {
        if !(1..=10).contains(&f) {
            return Err(Refusal::NotACommittee);
        }
        let n = 3 * f + 1;
        if faulty.bits >= 1 << n || faulty.len() > u32::from(f) {
            return Err(Refusal::NotACommittee);
        }
        Ok(Committee { n, f, faulty })
    }
}
