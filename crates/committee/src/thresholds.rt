// How many processes each rule asks for. No other place writes these numbers.
ghost use Rattle.std.specs.Prelude.{◌≡◌, ◌-◌};
ghost use Rattle.committee.specs.Sets.{all};
ghost use Rattle.committee.specs.Thresholds.{quorum_of, weak_quorum_of, disclosure_quorum_of, QuorumsMeet, OneCorrect, ManyCorrect};

use crate::membership::Committee;
use crate::sets::ProcessSet;

impl Committee {
    // Votes, view changes and completed epochs take a quorum.
    #[tactic(auto, using(crate::proofs::Quorums::quorums_meet, crate::proofs::Quorums::many_correct))]
    pub fn quorum(&self) -> u8
        ensures value { result ≡ quorum_of self.now }
        ensures meet { QuorumsMeet self.now }
        ensures correct { ManyCorrect self.now }
    {
        2 * self.f + 1
    }

    // So many that one of them is correct.
    #[tactic(auto, using(crate::proofs::Quorums::one_correct))]
    pub fn weak_quorum(&self) -> u8
        ensures value { result ≡ weak_quorum_of self.now }
        ensures correct { OneCorrect self.now }
    {
        1 + self.f
    }

    // The disclosures after which ALLOW-ANY is sent: a rule of its own, although the number is a quorum's.
    pub fn disclosure_quorum(&self) -> u8
        ensures { result ≡ disclosure_quorum_of self.now }
    {
        self.f * 2 + 1
    }

    // The set of all processes of the committee.
    pub fn everyone(&self) -> ProcessSet
        ensures { result ≡ all self.now.n }
    {
        ProcessSet {
            bits: (1 << self.n) - 1,
        }
    }
}
