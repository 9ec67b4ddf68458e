// A sitting on a new board: the line of its opening, its moves, and what stands at its end.
ghost use Rattle.std.specs.Prelude.{◌≡◌, [], ◌++◌, length, string_bytes, OnOk};
ghost use Rattle.std.specs.Option.{option_map};
ghost use Rattle.committee.specs.Sets.{of_bits};
ghost use Rattle.player.specs.Outcomes.{line_of};
ghost use Rattle.exam.specs.Schedules.{ending, Behind};
ghost use Rattle.exam.specs.Sitting.{lines_on, leads_by, OpensNamed, ShowsBy};

mod registers;
pub mod schedules;

use board::open;
use committee::{ProcessSet, Rota};
use listing::write_fault;
use moves::{Fault, Opening, Placed};
use player::{Outcome, play, write_processes};
use protocol::{Board, Table};
use refusals::Refusal;
use register::Register;
use registers::RegisterKind;
use std::fmt;
use wire::{Kind, Record, Vouch};

// OPEN is the first move.
const FIRST_MOVE: u8 = 1;

// What stands where nothing was sent yet. No kind is that of nothing, so a record has no default.
const NO_RECORD: Record = Record {
    sender: 0,
    kind: Kind::Disclose,
    number: 0,
    value: 0,
    back: 0,
    vouch: Vouch::Nothing,
    to: ProcessSet { bits: 0 },
    got: ProcessSet { bits: 0 },
    heeded: ProcessSet { bits: 0 },
};

// What stands behind OPEN in a schedule: the moves, and the fault behind them, if there is one.
#[derive(Clone, Copy)]
struct Rest<'a> {
    moves: &'a [Placed<'a>],
    fault: Option<Fault>,
}

fn write_opening(outcome: Outcome, text: &mut String) -> fmt::Result
    ensures { OnOk result (string_bytes text.new ≡ string_bytes text.old ++ line_of 1 outcome) }
{
    writeln!(text, "{FIRST_MOVE} {outcome}")?;
    Ok(())
}

fn write_ending(table: &Table, fault: Option<Fault>, text: &mut String) -> fmt::Result
    ensures { OnOk result (string_bytes text.new ≡ string_bytes text.old ++ ending table.now fault) }
{
    match fault {
        Some(_) => write_fault(fault, text),
        None => write_processes(table, text),
    }
}

// The faulty processes that OPEN names.
fn faulty_of(opening: Opening<'_>) -> ProcessSet
    ensures { result ≡ of_bits opening.entry.faulty }
{
    ProcessSet {
        bits: opening.faulty,
    }
}

// Opens the board that OPEN asks for. The number of the register is tested last.
fn open_named<R: Rota + Drop, G: Register>(
    opening: Opening<'_>,
    rota: Option<R>,
    register: &G,
) -> Result<Board<R>, Refusal>
    ensures { OpensNamed R.Rota opening.entry rota (length (G.Register.pairs register.now)) result }
{
    let board = open(
        opening.f,
        faulty_of(opening),
        opening.delay,
        opening.overlap,
        rota,
        register,
    )?;
    RegisterKind::try_from(opening.register)?;
    Ok(board)
}

impl Rest<'_> {
    // The sitting on a board that is open.
    fn sit<R: Rota + Drop, G: Register>(
        self,
        mut board: Board<R>,
        register: &mut G,
        text: &mut String,
    ) -> fmt::Result
        ensures { OnOk result (string_bytes text.new ≡ string_bytes text.old ++ lines_on R.Rota G.Register board register.old self.entry) }
    {
        // Fixed memory, as any wire that a board is lent.
        let mut wire = [NO_RECORD; 1024];
        write_opening(Outcome::Opened(board.table.setting.committee.n), text)?;
        play(&mut board, &mut wire, register, self.moves, text)?;
        write_ending(&board.table, self.fault, text)
    }

    // Opens the board, and goes on with the sitting unless that is refused.
    fn open_and_sit<R: Rota + Drop, G: Register>(
        self,
        opening: Opening<'_>,
        rota: Option<R>,
        register: &mut G,
        text: &mut String,
    ) -> fmt::Result
        requires { G.Register.pairs register.old ≡ [] }
        ensures { OnOk result (Behind (ShowsBy (leads_by R.Rota rota) G.Register.ROOM opening.entry (option_map R.Rota.size rota) self.entry) (string_bytes text.old) (string_bytes text.new)) }
    {
        match open_named(opening, rota, register) {
            Ok(board) => self.sit(board, register, text),
            Err(cause) => write_opening(Outcome::Refused(cause), text),
        }
    }
}
