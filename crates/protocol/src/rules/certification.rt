// Certification: from the proposal to a certificate, and the start of view 1.
ghost use Rattle.std.specs.Prelude.{◌≡◌};
ghost use Rattle.protocol.specs.Certifying.{proposes, begins, on_disclose, on_allow_any, on_certificate};

use crate::process::Phase;
use crate::seat::{Delivery, Seat};
use crate::step::Step;
use wire::{Kind, Record, Vouch};

impl Seat {
    // The process proposes a value and discloses it.
    pub fn proposes(&self, value: u16) -> Step
        ensures { result ≡ proposes self.now.setting self.now.process self.now.number value }
    {
        let mut process = self.process;
        process.certification.phase = Phase::Certifying;
        process.certification.proposal = value;
        Step::moves(process, self.to_all(Kind::Disclose, 0, value))
    }

    // The process passes a certificate on, keeps its offer and enters view 1, whose leader is told.
    fn begins(&self, value: u16, vouch: Vouch, offer: u16, leader: u8) -> Step
        ensures { result ≡ begins self.now.setting self.now.process self.now.number value vouch offer leader }
    {
        let mut process = self.process;
        process.certification.phase = Phase::Running;
        process.certification.offer = offer;
        process.certification.vouch = vouch;
        process.synchronizer.epoch = 1;
        process.synchronizer.place = 1;
        process.synchronizer.due = process.synchronizer.clock + self.view_ticks();
        let entry = process.enter(1, self.number, leader);
        let certificate = Record {
            vouch,
            ..self.to_all(Kind::Certificate, 0, value)
        };
        Step::acts_twice(process, certificate, entry)
    }
}

impl Delivery {
    // DISCLOSE, heeded from so many senders with this value and from so many in all.
    pub fn on_disclose(&self, same: u32, all: u32, leader: u8) -> Step
        ensures { result ≡ on_disclose self.now.seat.setting self.now.seat.process self.now.seat.number self.now.delivered same all leader }
    {
        let committee = self.seat.setting.committee;
        if same >= u32::from(committee.weak_quorum()) {
            return self.seat.begins(
                self.delivered.value,
                Vouch::Disclosed,
                self.delivered.value,
                leader,
            );
        }
        let mut process = self.seat.process;
        if all >= u32::from(committee.disclosure_quorum()) && !process.certification.allowed {
            process.certification.allowed = true;
            return Step::acts_with(process, self.seat.to_all(Kind::AllowAny, 0, 0));
        }
        Step::heeds(process)
    }

    // ALLOW-ANY, heeded from so many senders.
    pub fn on_allow_any(&self, from: u32, leader: u8) -> Step
        ensures { result ≡ on_allow_any self.now.seat.setting self.now.seat.process self.now.seat.number from leader }
    {
        if from >= u32::from(self.seat.setting.committee.weak_quorum()) {
            return self.seat.begins(
                0,
                Vouch::Any,
                self.seat.process.certification.proposal,
                leader,
            );
        }
        Step::heeds(self.seat.process)
    }

    // CERTIFICATE, which holds or not.
    pub fn on_certificate(&self, holds: bool, leader: u8) -> Step
        ensures { result ≡ on_certificate self.now.seat.setting self.now.seat.process self.now.seat.number self.now.delivered holds leader }
    {
        if !holds {
            return Step::drops(self.seat.process);
        }
        let offer = match self.delivered.vouch {
            Vouch::Any => self.seat.process.certification.proposal,
            _ => self.delivered.value,
        };
        self.seat
            .begins(self.delivered.value, self.delivered.vouch, offer, leader)
    }
}
