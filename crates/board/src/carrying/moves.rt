// The five moves on a board. Each is one function of the sitting, the board with its wire and its register: contracts say
// which board, wire, register and answer follow, and that a sitting that is a run goes on as one, with all that is promised.
// The three are lent one by one; carrying.rt says why.
ghost use Rattle.protocol.specs.Runs.{sitting, Ticks, Proposes, Expires, Delivers, Injects};
ghost use Rattle.safety.specs.Promises.{Keeps};

use super::{carry_out, mark};
use committee::Rota;
use plans::{plan_deliver, plan_expire, plan_inject, plan_propose, plan_tick};
use protocol::{Answer, Board, Draft};
use refusals::Refusal;
use register::Register;
use wire::Record;

// The process proposes a value, and certification starts.
pub fn propose<R: Rota, G: Register>(
    board: &mut Board<R>,
    wire: &mut [Record],
    register: &mut G,
    process: u8,
    value: u16,
) -> Result<Answer, Refusal>
    ensures exact { Proposes R.Rota G.Register (sitting board.old wire.old register.old) process value (sitting board.new wire.new register.new) result }
    ensures keeps { Keeps R.Rota G.Register (sitting board.old wire.old register.old) (sitting board.new wire.new register.new) }
{
    let step = plan_propose(board, wire, register, process, value)?;
    Ok(carry_out(&mut board.table, wire, register, process, step))
}

// The process's clock goes on.
pub fn tick<R: Rota, G: Register>(
    board: &mut Board<R>,
    wire: &mut [Record],
    register: &mut G,
    process: u8,
    ticks: u32,
) -> Result<Answer, Refusal>
    ensures exact { Ticks R.Rota G.Register (sitting board.old wire.old register.old) process ticks (sitting board.new wire.new register.new) result }
    ensures keeps { Keeps R.Rota G.Register (sitting board.old wire.old register.old) (sitting board.new wire.new register.new) }
{
    let step = plan_tick(board, wire, register, process, ticks)?;
    Ok(carry_out(&mut board.table, wire, register, process, step))
}

// A timer that is due expires: 1 is the view timer, 2 the spread timer; a call may name any number, and is refused for the others.
pub fn expire<R: Rota, G: Register>(
    board: &mut Board<R>,
    wire: &mut [Record],
    register: &mut G,
    process: u8,
    timer: u8,
) -> Result<Answer, Refusal>
    ensures exact { Expires R.Rota G.Register (sitting board.old wire.old register.old) process timer (sitting board.new wire.new register.new) result }
    ensures keeps { Keeps R.Rota G.Register (sitting board.old wire.old register.old) (sitting board.new wire.new register.new) }
{
    let step = plan_expire(board, wire, register, process, timer)?;
    Ok(carry_out(&mut board.table, wire, register, process, step))
}

// The record at this place of the wire is delivered to the process.
pub fn deliver<R: Rota, G: Register>(
    board: &mut Board<R>,
    wire: &mut [Record],
    register: &mut G,
    index: u16,
    process: u8,
) -> Result<Answer, Refusal>
    ensures exact { Delivers R.Rota G.Register (sitting board.old wire.old register.old) index process (sitting board.new wire.new register.new) result }
    ensures keeps { Keeps R.Rota G.Register (sitting board.old wire.old register.old) (sitting board.new wire.new register.new) }
{
    let step = plan_deliver(board, wire, register, index, process)?;
    mark(wire, index, process, step.answer.is_heed());
    Ok(carry_out(&mut board.table, wire, register, process, step))
}

// A faulty process sends a record.
pub fn inject<R: Rota, G: Register>(
    board: &mut Board<R>,
    wire: &mut [Record],
    register: &mut G,
    process: u8,
    draft: Draft,
) -> Result<Answer, Refusal>
    ensures exact { Injects R.Rota G.Register (sitting board.old wire.old register.old) process draft (sitting board.new wire.new register.new) result }
    ensures keeps { Keeps R.Rota G.Register (sitting board.old wire.old register.old) (sitting board.new wire.new register.new) }
{
    let step = plan_inject(board, wire, register, process, draft)?;
    Ok(carry_out(&mut board.table, wire, register, process, step))
}
