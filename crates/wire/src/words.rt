// What a record costs, and to which epoch that is charged.
ghost use Rattle.std.specs.Prelude.{◌≡◌, ◌≤◌, true, false, MatchResult};
ghost use Rattle.refusals.specs.declared.causes.Refusal.TheVariants.{FieldOutOfRange};
ghost use Rattle.wire.specs.Words.{words_of, epoch_in, no_epoch};

use crate::kind::Kind;
use crate::record::Record;
use committee::Committee;
use refusals::Refusal;

impl Record {
    // One word for each process that the record goes to.
    pub fn words(&self) -> u32
        ensures value { result ≡ words_of self.now }
        ensures few { result ≤ 32 }
    {
        self.to.len()
    }

    // The epoch that the record belongs to; 0 stands for certification.
    pub fn epoch(&self, committee: &Committee) -> Result<u32, Refusal>
        ensures { MatchResult result
            (λ e. (no_epoch self.now ≡ false) × (e ≡ epoch_in committee.now.f self.now))
            (λ e. (no_epoch self.now ≡ true) × (e ≡ FieldOutOfRange)) }
    {
        match self.kind {
            Kind::Disclose | Kind::AllowAny | Kind::Certificate => Ok(0),
            Kind::EpochCompleted | Kind::EnterEpoch => Ok(self.number),
            _ => {
                let (epoch, _place) = committee.epoch_place(self.number)?;
                Ok(epoch)
            }
        }
    }
}
