// The listing of a schedule: a line for each move, then the line of the fault, if there is one.
ghost use Rattle.std.specs.Prelude.{◌≡◌, ◌++◌, map, string_bytes, IfOk, OnOk};
ghost use Rattle.std.specs.List.{flat_map};
ghost use Rattle.schedule.specs.Laid.{LaidOut};
ghost use Rattle.schedule.specs.Reading.{reading, Appends};
ghost use Rattle.moves.specs.Orders.{placed_of};
ghost use Rattle.listing.specs.Lines.{move_line, fault_line, listing};

use moves::{Fault, Placed};
use schedule::{Stop, read};
use std::alloc::{AllocError, Global};
use std::fmt;

// Appends a line for each move.
fn write_moves(moves: &[Placed], text: &mut String) -> fmt::Result
    ensures { OnOk result (string_bytes text.new ≡ string_bytes text.old ++ flat_map move_line (map placed_of moves.now)) }
{
    for placed in moves {
        writeln!(text, "{placed}")?;
    }
    Ok(())
}

// Appends the line of the fault, if there is one.
pub fn write_fault(fault: Option<Fault>, text: &mut String) -> fmt::Result
    ensures { OnOk result (string_bytes text.new ≡ string_bytes text.old ++ fault_line fault) }
{
    if let Some(fault) = fault {
        writeln!(text, "{fault}")?;
    }
    Ok(())
}

// Reads the whole schedule: appends its moves to `moves`, and answers the fault behind them, if there is one. It fails only
// for want of memory.
pub fn read_to_fault<'a>(
    bytes: &'a [u8],
    moves: &mut Vec<Placed<'a>>,
) -> Result<Option<Fault>, AllocError>
    ensures moves { OnOk result (Appends moves.old.items moves.new.items (reading bytes.now).moves) }
    ensures fault { IfOk result (λ fault. (reading bytes.now).fault ≡ fault) }
    ensures laid { LaidOut bytes.now }
{
    match read(bytes, moves) {
        Ok(()) => Ok(None),
        Err(Stop::Fault(fault)) => Ok(Some(fault)),
        Err(Stop::NoMemory) => Err(AllocError),
    }
}

// Appends the listing of the schedule to `text`. It fails only for want of memory.
pub fn list(heap: Global, bytes: &[u8], text: &mut String) -> fmt::Result
    ensures lists { OnOk result (string_bytes text.new ≡ string_bytes text.old ++ listing bytes.now) }
    ensures laid { LaidOut bytes.now }
{
    let mut moves = Vec::new(heap);
    // What was read is written, also where memory then ran out.
    let fault = read_to_fault(bytes, &mut moves);
    write_moves(moves.as_slice(), text)?;
    write_fault(fault?, text)
}
