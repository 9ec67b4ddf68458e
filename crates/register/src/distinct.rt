// One count of distinct processes, for any kind of record.
ghost use Rattle.std.specs.Prelude.{◌≡◌};
ghost use Rattle.counting.specs.Counts.{count_to};
ghost use Rattle.register.specs.Distinct.{seen, Gathered};

use crate::attests::Attests;
use committee::ProcessSet;

// The processes, 0 to 30, that have a record which counts.
pub fn distinct_processes<Q, T: Attests<Q>>(items: &[T], query: &Q) -> ProcessSet
    ensures { Gathered (seen T.process (λ x. T.counts x query.now) items.now) result }
{
    // Written out, as in the tally.
    let mut found = ProcessSet { bits: 0 };
    for x in items {
        let p = x.process();
        if p <= 30 && x.counts(query) {
            found = found.with(p);
        }
    }
    found
}

// How many they are.
pub fn count_distinct<Q, T: Attests<Q>>(items: &[T], query: &Q) -> u32
    ensures { result ≡ count_to (seen T.process (λ x. T.counts x query.now) items.now) 31 }
{
    distinct_processes(items, query).len()
}
