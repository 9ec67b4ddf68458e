// What a move comes to, before it is carried out.
ghost use Rattle.std.specs.Prelude.{◌≡◌};
ghost use Rattle.protocol.specs.Steps.{is_heed};

use crate::process::Process;
use wire::Record;

// What a move answers; the number is how many records it appended.
#[derive(Clone, Copy, Debug, PartialEq, Eq)]
pub enum Answer {
    Moved(u8),
    Dropped,
    Heeded,
    Acted(u8),
}

impl Answer {
    // Whether the delivered record is heeded.
    pub fn is_heed(self) -> bool
        ensures { result ≡ is_heed self }
    {
        matches!(self, Answer::Heeded | Answer::Acted(_))
    }
}

#[derive(Clone, Copy, Debug, PartialEq, Eq)]
pub struct Step {
    // The process's new fields.
    pub process: Process,
    pub answer: Answer,
    // The records to append, in this order: two at most, each carried out by itself, so two fields are plainer than a list.
    pub first: Option<Record>,
    pub second: Option<Record>,
}
