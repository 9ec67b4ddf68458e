// What a move reads of a board in range: the table, the wire, and the seat of the process that moves.
ghost use Rattle.std.specs.Prelude.{◌≡◌, true};
ghost use Rattle.protocol.specs.Ranges.{wire_fits};
ghost use Rattle.admission.specs.Seating.{Seated};

use protocol::{Seat, Table};
use wire::Record;

// Its methods stand in seating.rt: their contracts name definitions that name this struct, which its own file may not import.
#[derive(Clone, Copy)]
pub struct Scene<'a> {
    pub table: &'a Table,
    pub wire: &'a [Record],
    pub seat: Seat,
    ghost wire_fits: { wire_fits table.now wire.now ≡ true },
    ghost seated: { Seated table.now seat.number seat },
}
