// The plan of deliver: what stands in the way, and else the rule of the record's kind.
ghost use Rattle.std.specs.Prelude.{◌≡◌};
ghost use Rattle.protocol.specs.Moments.{moment, signed_of};
ghost use Rattle.protocol.specs.Plans.{deliver_plan, ruled, taken};
ghost use Rattle.admission.specs.Scenes.{shown};
ghost use Rattle.plans.specs.Arriving.{Arrives};

use crate::arrival::Arrival;
use admission::{Scene, admit, is_stale};
use committee::Rota;
use protocol::{Ballot, Board, Delivery, Stage, Step, best_backing, from_senders};
use refusals::Refusal;
use register::Register;
use wire::{Heeded, Kind, Record};

impl<'a> Arrival<'a> {
    // There has to be such a record, addressed to the process, and the process has not got it yet.
    fn at(scene: Scene<'a>, index: u16) -> Result<Arrival<'a>, Refusal>
        ensures { Arrives scene.entry index result }
    {
        let process = scene.seat.number;
        if index >= scene.table.used {
            return Err(Refusal::NoSuchRecord);
        }
        let delivered = scene.wire[usize::from(index)];
        if !delivered.to.contains(process) || delivered.got.contains(process) {
            return Err(Refusal::NoSuchRecord);
        }
        let delivery = Delivery {
            seat: scene.seat,
            delivered,
        };
        Ok(Arrival {
            scene,
            index,
            delivery,
        })
    }

    // The rule of the record's kind, over the records that are used.
    fn rule<R: Rota, G: Register>(&self, rota: &R, register: &G) -> Step
        ensures { result ≡ ruled (R.Rota.leader rota.now) (shown self.now.scene (G.Register.pairs register.now)) self.now.scene.seat.number self.now.index self.now.delivery.delivered }
    {
        let delivery = self.delivery;
        let record = delivery.delivered;
        let process = delivery.seat.number;
        let used = self.scene.used();
        let asked = |value: Option<u16>| Heeded {
            by: process,
            kind: record.kind,
            number: record.number,
            value,
        };
        let heard = |value: Option<u16>| from_senders(used, &asked(value), record.sender);
        let holds = || record.holds(&delivery.seat.setting.committee, register);
        let leader = rota.leader(record.number);
        let first = rota.leader(1);
        // The list reads as the rule book does: each kind has one rule, which asks for facts of its own.
        match record.kind {
            Kind::Disclose => delivery.on_disclose(heard(Some(record.value)), heard(None), first),
            Kind::AllowAny => delivery.on_allow_any(heard(None), first),
            Kind::Certificate => delivery.on_certificate(holds(), first),
            Kind::EpochCompleted => delivery.on_epoch_completed(heard(None)),
            Kind::EnterEpoch => delivery.on_enter_epoch(holds()),
            Kind::ViewChange => {
                let best = best_backing(used, &asked(None), usize::from(self.index));
                delivery.on_view_change(leader == process, holds(), heard(None), best)
            }
            Kind::Prepare => delivery.on_prepare(holds(), leader),
            Kind::PrepareVote => delivery.on_vote(
                Ballot::Prepare,
                leader == process,
                heard(Some(record.value)),
            ),
            Kind::Precommit => delivery.on_quorum(Stage::Precommit, holds(), leader),
            Kind::PrecommitVote => delivery.on_vote(
                Ballot::Precommit,
                leader == process,
                heard(Some(record.value)),
            ),
            Kind::Commit => delivery.on_quorum(Stage::Commit, holds(), leader),
            Kind::CommitVote => delivery.on_vote(
                Ballot::Commit,
                leader == process,
                heard(Some(record.value)),
            ),
            Kind::Decide => delivery.on_decide(holds()),
        }
    }

    // A correct process takes the record.
    fn take<R: Rota, G: Register>(&self, rota: &R, register: &G) -> Result<Step, Refusal>
        ensures { result ≡ (let m = shown self.now.scene (G.Register.pairs register.now) in let p = self.now.scene.seat.number in taken G.Register.ROOM m p self.now.index (ruled (R.Rota.leader rota.now) m p self.now.index self.now.delivery.delivered)) }
    {
        let process = self.delivery.seat.process;
        admit(&process, &self.delivery.delivered)?;
        self.scene.find_room(register)?;
        if is_stale(&process, &self.delivery.delivered) {
            return Ok(Step::drops(process));
        }
        Ok(self.rule(rota, register))
    }
}

// Board, wire and register come one by one, as in the plans of own moves.
pub fn plan_deliver<R: Rota, G: Register>(
    board: &Board<R>,
    wire: &[Record],
    register: &G,
    index: u16,
    process: u8,
) -> Result<Step, Refusal>
    ensures { result ≡ deliver_plan (R.Rota.leader board.now.rota) (R.Rota.size board.now.rota) G.Register.ROOM (moment board.now.table wire.now (signed_of (G.Register.pairs register.now))) process index }
{
    let scene = Scene::of(board, wire, process)?;
    let arrival = Arrival::at(scene, index)?;
    if scene.is_faulty() {
        return Ok(Step::drops(scene.seat.process));
    }
    arrival.take(&board.rota, register)
}
