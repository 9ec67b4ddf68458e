// The synchronizer: from view to view, and from epoch to epoch.
ghost use Rattle.std.specs.Prelude.{◌≡◌};
ghost use Rattle.protocol.specs.Plans.{later};
ghost use Rattle.protocol.specs.Steps.{moves_on};
ghost use Rattle.protocol.specs.Synchronizing.{view_here, on_view_expiry, awaiting, on_epoch_completed, on_enter_epoch, on_spread_expiry};

use crate::process::Process;
use crate::seat::{Delivery, Seat};
use crate::step::Step;
use wire::Kind;

impl Seat {
    // The view at a place of the process's epoch.
    pub fn view_here(&self, place: u8) -> u32
        ensures { result ≡ view_here self.now.setting self.now.process place }
    {
        // A seat's epoch is 65,535 at most, so the cast changes no number.
        let epoch = self.process.synchronizer.epoch as u16;
        self.setting.committee.view_at(epoch, place)
    }

    // The clock goes on.
    pub fn on_tick(&self, ticks: u32) -> Step
        ensures { result ≡ moves_on (later self.now.process ticks) }
    {
        let mut process = self.process;
        process.synchronizer.clock += u64::from(ticks);
        Step::moves_on(process)
    }

    // The view timer has expired; the leader is that of the epoch's next view, if there is one.
    pub fn on_view_expiry(&self, leader: u8) -> Step
        ensures { result ≡ on_view_expiry self.now.setting self.now.process self.now.number leader }
    {
        let mut process = self.process;
        if process.synchronizer.place > self.setting.committee.f {
            process.synchronizer.due = 0;
            return Step::moves(
                process,
                self.to_all(Kind::EpochCompleted, process.synchronizer.epoch, 0),
            );
        }
        process.synchronizer.place += 1;
        process.synchronizer.due = process.synchronizer.clock + self.view_ticks();
        let view = self.view_here(process.synchronizer.place);
        let entry = process.enter(view, self.number, leader);
        Step::moves(process, entry)
    }

    // The spread timer has expired; the leader is that of the epoch's first view.
    pub fn on_spread_expiry(&self, leader: u8) -> Step
        ensures { result ≡ on_spread_expiry self.now.setting self.now.process self.now.number leader }
    {
        let mut process = self.process;
        let told = self.to_all(Kind::EnterEpoch, process.synchronizer.epoch, 0);
        process.synchronizer.place = 1;
        process.synchronizer.spread = 0;
        process.synchronizer.due = process.synchronizer.clock + self.view_ticks();
        let view = self.view_here(1);
        let entry = process.enter(view, self.number, leader);
        Step::moves_twice(process, told, entry)
    }

    // The process in an epoch that it has yet to enter: the spread timer runs, the view timer does not.
    fn awaiting(&self, epoch: u32) -> Process
        ensures { result ≡ awaiting self.now.setting self.now.process epoch }
    {
        let mut process = self.process;
        process.synchronizer.epoch = epoch;
        process.synchronizer.due = 0;
        process.synchronizer.spread = process.synchronizer.clock + u64::from(self.setting.delay);
        process
    }
}

impl Delivery {
    // EPOCH-COMPLETED, heeded from so many senders.
    pub fn on_epoch_completed(&self, from: u32) -> Step
        ensures { result ≡ on_epoch_completed self.now.seat.setting self.now.seat.process self.now.delivered from }
    {
        let seat = self.seat;
        let quorum = u32::from(seat.setting.committee.quorum());
        if seat.process.synchronizer.epoch <= self.delivered.number && quorum <= from {
            return Step::acts(seat.awaiting(self.delivered.number + 1));
        }
        Step::heeds(seat.process)
    }

    // ENTER-EPOCH, whose certificate holds or not.
    pub fn on_enter_epoch(&self, holds: bool) -> Step
        ensures { result ≡ on_enter_epoch self.now.seat.setting self.now.seat.process self.now.delivered holds }
    {
        let seat = self.seat;
        if seat.process.synchronizer.epoch < self.delivered.number && holds {
            return Step::acts(seat.awaiting(self.delivered.number));
        }
        Step::drops(seat.process)
    }
}
