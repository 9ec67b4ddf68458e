// The view core: what a leader proposes, and what processes vote for.
ghost use Rattle.std.specs.Prelude.{◌≡◌};
ghost use Rattle.protocol.specs.Voting.{proposing, on_view_change, unlocked, on_prepare, on_quorum, on_decide, on_vote};

use crate::ballot::Ballot;
use crate::process::Mark;
use crate::seat::{Delivery, Seat};
use crate::stage::Stage;
use crate::step::Step;
use wire::{Kind, Record, Vouch};

impl Seat {
    // The leader proposes the backed value, or its offer where nothing backs one.
    fn proposing(&self, view: u32, best: Mark) -> Step
        ensures { result ≡ proposing self.now.setting self.now.process self.now.number view best }
    {
        let mut process = self.process;
        let (value, vouch) = if best.view == 0 {
            (process.certification.offer, process.certification.vouch)
        } else {
            (best.value, Vouch::Nothing)
        };
        process.core.lead = Ballot::Prepare.phase();
        process.core.led = value;
        let proposal = Record {
            back: best.view,
            vouch,
            ..self.to_all(Kind::Prepare, view, value)
        };
        Step::acts_with(process, proposal)
    }
}

impl Delivery {
    // VIEW-CHANGE, heeded from so many senders, with the best backing among them.
    pub fn on_view_change(&self, leads: bool, holds: bool, from: u32, best: Mark) -> Step
        ensures { result ≡ on_view_change self.now.seat.setting self.now.seat.process self.now.seat.number self.now.delivered leads holds from best }
    {
        let seat = self.seat;
        if !leads || !holds {
            return Step::drops(seat.process);
        }
        if from >= u32::from(seat.setting.committee.quorum()) && seat.process.core.lead == 0 {
            return seat.proposing(self.delivered.number, best);
        }
        Step::heeds(seat.process)
    }

    // Whether the lock lets the process vote for the proposal.
    fn unlocked(&self) -> bool
        ensures { result ≡ unlocked self.now.seat.process.core self.now.delivered }
    {
        let locked = self.seat.process.core.locked;
        locked.view == 0
            || self.delivered.value == locked.value
            || self.delivered.back > locked.view
    }

    pub fn on_prepare(&self, holds: bool, leader: u8) -> Step
        ensures { result ≡ on_prepare self.now.seat.process self.now.seat.number self.now.delivered holds leader }
    {
        let mut process = self.seat.process;
        let delivered = self.delivered;
        if delivered.sender == leader && process.core.step == 0 && holds && self.unlocked() {
            process.core.step = 1;
            return Step::acts_with(
                process,
                self.seat.to_leader(leader, Kind::PrepareVote, delivered.number, delivered.value),
            );
        }
        Step::drops(process)
    }

    // PRECOMMIT or COMMIT: the value is prepared or locked, and voted for.
    pub fn on_quorum(&self, stage: Stage, holds: bool, leader: u8) -> Step
        ensures { result ≡ on_quorum stage self.now.seat.process self.now.seat.number self.now.delivered holds leader }
    {
        let mut process = self.seat.process;
        let delivered = self.delivered;
        if delivered.sender != leader || process.core.step >= stage.step() || !holds {
            return Step::drops(process);
        }
        let mark = Mark {
            view: delivered.number,
            value: delivered.value,
        };
        match stage {
            Stage::Precommit => process.core.prepared = mark,
            Stage::Commit => process.core.locked = mark,
        }
        process.core.step = stage.step();
        let vote = self
            .seat
            .to_leader(leader, stage.vote(), delivered.number, delivered.value);
        Step::acts_with(process, vote)
    }

    // DECIDE of any view and sender.
    pub fn on_decide(&self, holds: bool) -> Step
        ensures { result ≡ on_decide self.now.seat.process self.now.delivered holds }
    {
        let mut process = self.seat.process;
        if process.core.decided == 0 && holds {
            process.core.decided = self.delivered.value;
            return Step::acts(process);
        }
        Step::drops(process)
    }

    // A vote of a phase, heeded from so many senders with this value.
    pub fn on_vote(&self, ballot: Ballot, leads: bool, from: u32) -> Step
        ensures { result ≡ on_vote self.now.seat.setting self.now.seat.process self.now.seat.number self.now.delivered ballot leads from }
    {
        let seat = self.seat;
        let mut process = seat.process;
        if !leads || process.core.lead < 1 || self.delivered.value != process.core.led {
            return Step::drops(process);
        }
        if from >= u32::from(seat.setting.committee.quorum())
            && process.core.lead == ballot.phase()
        {
            process.core.lead = ballot.phase() + 1;
            return Step::acts_with(
                process,
                seat.to_all(
                    ballot.next_kind(),
                    self.delivered.number,
                    self.delivered.value,
                ),
            );
        }
        Step::heeds(process)
    }
}
