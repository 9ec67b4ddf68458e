// How many processes sent what a process has heeded.
ghost use Rattle.std.specs.Prelude.{◌≡◌};
ghost use Rattle.wire.specs.Heeding.{is_heeded, senders_of};

use crate::heeded::Heeded;
use crate::record::Record;
use register::{Attests, count_distinct};

impl Attests<Heeded> for Record {
    ghost process = { λ r. r.sender };

    ghost counts = { λ r h. is_heeded h r };

    fn process(&self) -> u8 {
        self.sender
    }

    fn counts(&self, query: &Heeded) -> bool {
        self.heeded.contains(query.by)
            && self.kind == query.kind
            && self.number == query.number
            && query.value.is_none_or(|value| self.value == value)
    }
}

// The distinct senders of the records that are asked for.
pub fn senders(records: &[Record], query: &Heeded) -> u32
    ensures { result ≡ senders_of query.now records.now }
{
    count_distinct(records, query)
}
