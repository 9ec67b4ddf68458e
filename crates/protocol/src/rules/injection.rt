// What a faulty process sends.
ghost use Rattle.std.specs.Prelude.{◌≡◌};
ghost use Rattle.wire.specs.Kinds.{in_field};
ghost use Rattle.protocol.specs.Plans.{draft_of};

use super::new_record;
use crate::draft::Draft;
use refusals::Refusal;
use wire::{Kind, Record, Vouch};

impl Draft {
    // The record that is drafted, unless the kind or the vouch is no such number.
    pub fn record(&self, sender: u8) -> Result<Record, Refusal>
        ensures { result ≡ in_field (draft_of sender self.now) }
    {
        let kind = Kind::try_from(self.kind)?;
        let vouch = Vouch::try_from(self.vouch)?;
        Ok(Record {
            back: self.back,
            vouch,
            ..new_record(sender, self.to, kind, self.number, self.value)
        })
    }
}
