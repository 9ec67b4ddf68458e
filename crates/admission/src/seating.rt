// What every move on a board is tested for: the board, the process, and room for what is appended.
ghost use Rattle.std.specs.Prelude.{◌≡◌, ◌<◌, true, take};
ghost use Rattle.committee.specs.Sets.{contains};
ghost use Rattle.protocol.specs.Moments.{moment, signed_of};
ghost use Rattle.protocol.specs.Ranges.{table_fits};
ghost use Rattle.admission.specs.Seating.{in_order, FindsOrder, Seated};
ghost use Rattle.admission.specs.Scenes.{shown, Sets, SetsCorrect, FindsRoom};

use crate::scene::Scene;
use committee::Rota;
use protocol::{Board, Seat, Table};
use refusals::Refusal;
use register::Register;
use wire::Record;

// No more records of a wire can be used.
const LONGEST_WIRE: usize = 65_535;

// Whether the rota fits the committee, and board and used records are in range. It answers whether, as any caller may ask;
// moves and queries go by find_order, which answers the cause.
pub fn in_order<R: Rota>(board: &Board<R>, wire: &[Record]) -> bool
    ensures { result ≡ in_order (R.Rota.size board.now.rota) board.now.table wire.now }
{
    let fitting = board.rota.size() == board.table.setting.committee.n;
    fitting && board.table.in_range() && board.table.wire_in_range(wire)
}

// The same test, where a board that fails it is refused.
pub fn find_order<R: Rota>(board: &Board<R>, wire: &[Record]) -> Result<(), Refusal>
    ensures { FindsOrder (R.Rota.size board.now.rota) board.now.table wire.now result }
{
    if !in_order(board, wire) {
        return Err(Refusal::BoardOutOfRange);
    }
    Ok(())
}

fn seated(table: &Table, process: u8) -> Seat
    requires fits { table_fits table.now ≡ true }
    requires member { process < table.now.setting.committee.n }
    ensures { Seated table.now process result }
{
    Seat {
        setting: table.setting,
        number: process,
        process: table.processes[usize::from(process)],
    }
}

// Two records are free, and the register takes one more pair.
pub fn find_room<G: Register>(table: &Table, wire: &[Record], register: &G) -> Result<(), Refusal>
    ensures { FindsRoom G.Register.ROOM (moment table.now wire.now (signed_of (G.Register.pairs register.now))) result }
{
    if wire.len().min(LONGEST_WIRE) < usize::from(table.used) + 2 {
        return Err(Refusal::WireFull);
    }
    if register.held() == G::ROOM {
        return Err(Refusal::RegisterFull);
    }
    Ok(())
}

impl<'a> Scene<'a> {
    // The scene of a process on a board in range.
    pub fn of<R: Rota>(
        board: &'a Board<R>,
        wire: &'a [Record],
        process: u8,
    ) -> Result<Scene<'a>, Refusal>
        ensures { Sets (R.Rota.size board.now.rota) board.now.table wire.now process result }
    {
        find_order(board, wire)?;
        let table = &board.table;
        if process >= table.setting.committee.n {
            return Err(Refusal::NoSuchProcess);
        }
        Ok(Scene {
            table,
            wire,
            seat: seated(table, process),
        })
    }

    // The same of a correct process: a faulty one makes no move of its own but to inject.
    pub fn of_correct<R: Rota>(
        board: &'a Board<R>,
        wire: &'a [Record],
        process: u8,
    ) -> Result<Scene<'a>, Refusal>
        ensures { SetsCorrect (R.Rota.size board.now.rota) board.now.table wire.now process result }
    {
        let scene = Scene::of(board, wire, process)?;
        if scene.is_faulty() {
            return Err(Refusal::WrongSide);
        }
        Ok(scene)
    }

    pub fn is_faulty(&self) -> bool
        ensures { result ≡ contains self.now.seat.setting.committee.faulty self.now.seat.number }
    {
        self.seat
            .setting
            .committee
            .faulty
            .contains(self.seat.number)
    }

    // The records that are used.
    pub fn used(&self) -> &'a [Record]
        ensures { result.now ≡ take self.now.table.now.used self.now.wire.now }
    {
        &self.wire[..usize::from(self.table.used)]
    }

    // Room on its wire and in the register: the function above asks for no scene, and spelled out at four callers it is no plainer.
    pub fn find_room<G: Register>(&self, register: &G) -> Result<(), Refusal>
        ensures { FindsRoom G.Register.ROOM (shown self.now (G.Register.pairs register.now)) result }
    {
        find_room(self.table, self.wire, register)
    }
}
