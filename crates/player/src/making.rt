// One move of a schedule, made on an open board.
ghost use Rattle.std.specs.Prelude.{◌≡◌};
ghost use Rattle.moves.specs.Orders.{order_of};
ghost use Rattle.protocol.specs.Runs.{sitting};
ghost use Rattle.player.specs.Making.{MakesMove};
ghost use Rattle.player.specs.Playing.{drafted};

pub mod playing;

use board::{deliver, expire, inject, propose, tick};
use committee::{ProcessSet, Rota};
use moves::{Injection, Move};
use protocol::{Answer, Board, Draft};
use refusals::Refusal;
use register::Register;
use wire::Record;

// The crates of the two types do not know one another, so that schedules are cut apart from the protocol: this is no `From`.
fn draft_of(injection: Injection) -> Draft
    ensures { result ≡ drafted injection.kind injection.to injection.number injection.value injection.back injection.vouch }
{
    Draft {
        kind: injection.kind,
        to: ProcessSet { bits: injection.to },
        number: injection.number,
        value: injection.value,
        back: injection.back,
        vouch: injection.vouch,
    }
}

// A board is opened only once: another OPEN is out of place, and changes nothing. One call for each move, each with arguments of
// its own and with board, wire and register as they are lent.
fn make<R: Rota, G: Register>(
    board: &mut Board<R>,
    wire: &mut [Record],
    register: &mut G,
    order: Move<'_>,
) -> Result<Answer, Refusal>
    ensures { MakesMove R.Rota G.Register (sitting board.old wire.old register.old) (order_of order.entry) (sitting board.new wire.new register.new) result }
{
    match order {
        Move::Open(_) => Err(Refusal::OutOfPlace),
        Move::Propose { process, value } => propose(board, wire, register, process, value),
        Move::Tick { process, ticks } => tick(board, wire, register, process, ticks),
        Move::Expire { process, timer } => expire(board, wire, register, process, timer),
        Move::Deliver { record, process } => deliver(board, wire, register, record, process),
        Move::Inject(injection) => {
            inject(board, wire, register, injection.sender, draft_of(injection))
        }
    }
}
