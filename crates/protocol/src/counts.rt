// What is counted among the records that a process has heeded, the delivered one included.
ghost use Rattle.std.specs.Prelude.{◌≡◌, ℕ, Bool, ◌||◌, ◌==◌};
ghost use Rattle.counting.specs.Counts.{count_to};
ghost use Rattle.register.specs.Distinct.{Gathered};
ghost use Rattle.wire.specs.Heeding.{is_heeded};
ghost use Rattle.protocol.specs.Plans.{from_senders, better, best_backing};

use crate::process::Mark;
use committee::ProcessSet;
use register::{Attests, distinct_processes};
use wire::{Heeded, Record};

// How many processes are in the set or are this one.
fn count_with(found: ProcessSet, process: u8) -> u32
    ensures { (t : ℕ → Bool) → Gathered t found → result ≡ count_to (λ q. (process == q) || t q) 31 }
{
    if process <= 30 {
        found.with(process).len()
    } else {
        found.len()
    }
}

// How many distinct senders there are of the records that are asked for, with the sender of the delivered one.
pub fn from_senders(records: &[Record], query: &Heeded, sender: u8) -> u32
    ensures { result ≡ from_senders query.now sender records.now }
{
    count_with(distinct_processes(records, query), sender)
}

// The better of a backing and a record's, where the record counts; the earlier of equals.
fn better(best: Mark, counts: bool, rival: &Record) -> Mark
    ensures { result ≡ better counts rival.now best }
{
    if counts && best.view < rival.back {
        Mark {
            view: rival.back,
            value: rival.value,
        }
    } else {
        best
    }
}

// Whether the record at place i is asked for, or is the one at this place.
fn is_chosen(record: &Record, query: &Heeded, i: usize, index: usize) -> bool
    ensures { result ≡ (is_heeded query.now record.now || i == index) }
{
    record.counts(query) || i == index
}

// The first largest backing among the records that are asked for, with the one at this place.
pub fn best_backing(records: &[Record], query: &Heeded, index: usize) -> Mark
    ensures { result ≡ best_backing query.now index records.now }
{
    let mut best = Mark { view: 0, value: 0 };
    for (i, record) in records.iter().enumerate() {
        best = better(best, is_chosen(record, query, i, index), record);
    }
    best
}
