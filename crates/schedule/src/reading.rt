// Reads a whole schedule.
ghost use Rattle.std.specs.Prelude.{◌≡◌};
ghost use Rattle.schedule.specs.Laid.{LaidOut};
ghost use Rattle.schedule.specs.Reading.{reading, reading_from, ReadsAll, Unrolled};
ghost use Rattle.schedule.specs.declared.reading.Stop.TheVariants as stop;

use super::reader::Reader;
use moves::{Fault, Placed};
use std::alloc::AllocFailed;

// Why reading stopped before the end of the schedule.
#[derive(Clone, Copy, Debug, PartialEq, Eq)]
pub enum Stop {
    Fault(Fault),
    NoMemory,
}

impl From<Fault> for Stop {
    ghost from_gives = { λ fault stopped. stopped ≡ stop.Fault fault };

    fn from(fault: Fault) -> Stop {
        Stop::Fault(fault)
    }
}

impl<'a> From<AllocFailed<Placed<'a>>> for Stop {
    ghost from_gives = { λ refused stopped. stopped ≡ stop.NoMemory };

    fn from(_refused: AllocFailed<Placed<'a>>) -> Stop {
        Stop::NoMemory
    }
}

// Appends every move that the reader has yet to read.
#[tactic(auto, using(crate::proofs::Sofar::start, crate::proofs::Sofar::moreover))]
fn read_on<'a>(mut reader: Reader<'a>, moves: &mut Vec<Placed<'a>>) -> Result<(), Stop>
    ensures { ReadsAll (reading_from reader.entry.bytes.now reader.entry.at) moves.old.items result moves.new.items }
{
    while let Some(placed) = reader.next_move()? {
        moves.push(placed)?;
    }
    Ok(())
}

// Appends every move of the schedule, up to its end or its first fault, to `moves`.
#[tactic(auto, using(crate::proofs::Unroll::unrolled, crate::proofs::Ends::laid_out))]
pub fn read<'a>(bytes: &'a [u8], moves: &mut Vec<Placed<'a>>) -> Result<(), Stop>
    ensures reads { ReadsAll (reading bytes.now) moves.old.items result moves.new.items }
    ensures unrolled { Unrolled bytes.now }
    ensures laid { LaidOut bytes.now }
{
    read_on(Reader::new(bytes), moves)
}
