// The certificate that a record claims, and whether it holds.
ghost use Rattle.std.specs.Prelude.{◌≡◌};
ghost use Rattle.register.specs.Pairs.{has_pair};
ghost use Rattle.wire.specs.Claims.{vouched, prepared, claim_of, claim_holds};

use crate::claim::Claim;
use crate::kind::Kind;
use crate::record::Record;
use crate::share::Share;
use crate::vouch::Vouch;
use committee::Committee;
use register::Register;

impl Record {
    pub fn claim(&self, committee: &Committee) -> Claim
        ensures { result ≡ claim_of committee.now self.now }
    {
        let statement = match self.kind {
            Kind::Certificate => return self.vouched(committee),
            Kind::EnterEpoch => Share::EpochCompleted.statement(self.number.saturating_sub(1), 0),
            Kind::ViewChange | Kind::Prepare if self.back > 0 => return self.prepared(committee),
            Kind::Prepare => return self.vouched(committee),
            Kind::Precommit => Share::Prepare.statement(self.number, self.value),
            Kind::Commit => Share::Precommit.statement(self.number, self.value),
            Kind::Decide => Share::Commit.statement(self.number, self.value),
            _ => return Claim::Nothing,
        };
        Claim::Signed {
            statement,
            signers: committee.quorum(),
        }
    }

    // Whether the register has the signers that the record claims.
    pub fn holds<G: Register>(&self, committee: &Committee, register: &G) -> bool
        ensures { result ≡ claim_holds (claim_of committee.now self.now) (has_pair (G.pairs register.now)) }
    {
        match self.claim(committee) {
            Claim::Nothing => true,
            Claim::Never => false,
            Claim::Signed { statement, signers } => {
                let found = register.signers(statement);
                u32::from(signers) <= found
            }
        }
    }

    // The value was disclosed by enough, or enough allow any.
    fn vouched(&self, committee: &Committee) -> Claim
        ensures { result ≡ vouched committee.now self.now.vouch self.now.value }
    {
        let statement = match self.vouch {
            Vouch::Nothing => return Claim::Never,
            Vouch::Disclosed => Share::Disclose.statement(0, self.value),
            Vouch::Any => Share::AllowAny.statement(0, 0),
        };
        Claim::Signed {
            statement,
            signers: committee.weak_quorum(),
        }
    }

    // An earlier view prepared the value.
    fn prepared(&self, committee: &Committee) -> Claim
        ensures { result ≡ prepared committee.now self.now.number self.now.back self.now.value }
    {
        if self.back < self.number {
            Claim::Signed {
                statement: Share::Prepare.statement(self.back, self.value),
                signers: committee.quorum(),
            }
        } else {
            Claim::Never
        }
    }
}
