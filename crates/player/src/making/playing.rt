// The moves of a schedule, one after another.
ghost use Rattle.std.specs.Prelude.{map, string_bytes, OnOk};
ghost use Rattle.moves.specs.Orders.{placed_of};
ghost use Rattle.protocol.specs.Runs.{sitting};
ghost use Rattle.safety.specs.Promises.{Keeps};
ghost use Rattle.player.specs.Making.{PlaysOut};

use super::make;
use crate::outcome::Outcome;
use committee::Rota;
use moves::Placed;
use protocol::Board;
use register::Register;
use std::fmt;
use wire::Record;

// The board was opened by the first move.
const SECOND_MOVE: usize = 2;

// Plays the moves on an open board, whatever each of them is answered, and appends a line for each.
// Board, wire and register go one by one, as each call is lent them.
pub fn play<R: Rota, G: Register>(
    board: &mut Board<R>,
    wire: &mut [Record],
    register: &mut G,
    moves: &[Placed<'_>],
    text: &mut String,
) -> fmt::Result
    ensures plays { OnOk result (PlaysOut R.Rota G.Register (sitting board.old wire.old register.old) (map placed_of moves.now) (sitting board.new wire.new register.new) (string_bytes text.old) (string_bytes text.new)) }
    ensures keeps { Keeps R.Rota G.Register (sitting board.old wire.old register.old) (sitting board.new wire.new register.new) }
{
    for (index, placed) in moves.iter().enumerate() {
        let outcome = Outcome::from(make(board, wire, register, placed.order));
        writeln!(text, "{} {outcome}", SECOND_MOVE + index)?;
    }
    Ok(())
}
