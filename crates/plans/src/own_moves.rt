// The moves that a process makes of its own: propose, tick and expire, and inject for a faulty one.
// Board, wire and register come one by one: the calls are lent them so, and each plan makes a scene of the first two at once.
ghost use Rattle.std.specs.Prelude.{◌≡◌};
ghost use Rattle.protocol.specs.Moments.{moment, signed_of};
ghost use Rattle.protocol.specs.Plans.{tick_plan, propose_plan, is_due, deadline_of, expiry, expire_plan, inject_plan};
ghost use Rattle.plans.specs.Timers.{timer_number};

use crate::timer::Timer;
use admission::Scene;
use committee::Rota;
use protocol::process::Phase;
use protocol::ranges::{LAST_EPOCH, LAST_TICK};
use protocol::{Board, Draft, Process, Step};
use refusals::Refusal;
use register::Register;
use wire::Record;

// The most ticks that one move can add.
const MOST_TICKS: u32 = 1_000_000;

pub fn plan_tick<R: Rota, G: Register>(
    board: &Board<R>,
    wire: &[Record],
    register: &G,
    process: u8,
    ticks: u32,
) -> Result<Step, Refusal>
    ensures { result ≡ tick_plan (R.Rota.size board.now.rota) (moment board.now.table wire.now (signed_of (G.Register.pairs register.now))) process ticks }
{
    let scene = Scene::of_correct(board, wire, process)?;
    if !(1..=MOST_TICKS).contains(&ticks) {
        return Err(Refusal::FieldOutOfRange);
    }
    if scene.seat.process.synchronizer.clock + u64::from(ticks) > LAST_TICK {
        return Err(Refusal::ClockAtEnd);
    }
    Ok(scene.seat.on_tick(ticks))
}

pub fn plan_propose<R: Rota, G: Register>(
    board: &Board<R>,
    wire: &[Record],
    register: &G,
    process: u8,
    value: u16,
) -> Result<Step, Refusal>
    ensures { result ≡ propose_plan (R.Rota.size board.now.rota) G.Register.ROOM (moment board.now.table wire.now (signed_of (G.Register.pairs register.now))) process value }
{
    let scene = Scene::of_correct(board, wire, process)?;
    if value == 0 {
        return Err(Refusal::FieldOutOfRange);
    }
    if scene.seat.process.certification.phase != Phase::Idle {
        return Err(Refusal::Untimely);
    }
    scene.find_room(register)?;
    Ok(scene.seat.proposes(value))
}

// The timer is armed, and the clock has reached its deadline.
fn is_due(process: &Process, timer: Timer) -> bool
    ensures { result ≡ is_due (deadline_of (timer_number timer) process.now) process.now.synchronizer.clock }
{
    let at = process.synchronizer;
    let deadline = match timer {
        Timer::View => at.due,
        Timer::Spread => at.spread,
    };
    0 < deadline && deadline <= at.clock
}

// The timer has expired; where no epoch follows, the view timer of an epoch's last view may not.
fn expired<R: Rota>(rota: &R, scene: &Scene<'_>, timer: Timer) -> Result<Step, Refusal>
    ensures { result ≡ expiry (R.Rota.leader rota.now) scene.now.table.now scene.now.seat.number (timer_number timer) }
{
    let seat = scene.seat;
    let at = seat.process.synchronizer;
    match timer {
        Timer::View => {
            if at.place > seat.setting.committee.f && at.epoch == LAST_EPOCH {
                return Err(Refusal::LastEpoch);
            }
            let next = seat.view_here(at.place + 1);
            Ok(seat.on_view_expiry(rota.leader(next)))
        }
        Timer::Spread => Ok(seat.on_spread_expiry(rota.leader(seat.view_here(1)))),
    }
}

// Timer 1 is the view timer, timer 2 the spread timer; a call may name any number, and is refused for the others.
pub fn plan_expire<R: Rota, G: Register>(
    board: &Board<R>,
    wire: &[Record],
    register: &G,
    process: u8,
    timer: u8,
) -> Result<Step, Refusal>
    ensures { result ≡ expire_plan (R.Rota.leader board.now.rota) (R.Rota.size board.now.rota) G.Register.ROOM (moment board.now.table wire.now (signed_of (G.Register.pairs register.now))) process timer }
{
    let scene = Scene::of_correct(board, wire, process)?;
    let timer = Timer::try_from(timer)?;
    if !is_due(&scene.seat.process, timer) {
        return Err(Refusal::Untimely);
    }
    scene.find_room(register)?;
    expired(&board.rota, &scene, timer)
}

// A faulty process sends what it likes, as long as each field is in range.
pub fn plan_inject<R: Rota, G: Register>(
    board: &Board<R>,
    wire: &[Record],
    register: &G,
    process: u8,
    draft: Draft,
) -> Result<Step, Refusal>
    ensures { result ≡ inject_plan (R.Rota.size board.now.rota) G.Register.ROOM (moment board.now.table wire.now (signed_of (G.Register.pairs register.now))) process draft }
{
    let scene = Scene::of(board, wire, process)?;
    if !scene.is_faulty() {
        return Err(Refusal::WrongSide);
    }
    let record = draft.record(process)?;
    if !record.in_range(&scene.seat.setting.committee) {
        return Err(Refusal::FieldOutOfRange);
    }
    scene.find_room(register)?;
    Ok(Step::moves(scene.seat.process, record))
}
