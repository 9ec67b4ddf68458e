// The rules: how a step ends and what is sent; each part of SQuad has its rules in a module below.
ghost use Rattle.protocol.specs.Certifying.{entering, view_ticks};
ghost use Rattle.protocol.specs.Processes.{with_core};
ghost use Rattle.protocol.specs.Sending.{sent, only, to_all, to_one, view_change};
ghost use Rattle.protocol.specs.Steps.{moves_on, moves, moves_twice, drops, heeds, acts, acts_with, acts_twice};
ghost use Rattle.std.specs.Prelude.{◌≡◌};
ghost use Rattle.wire.specs.declared.vouch.Vouch.TheVariants.{Nothing};

pub mod certification;
pub mod injection;
pub mod synchronizer;
pub mod view_core;

use crate::process::Process;
use crate::seat::Seat;
use crate::step::{Answer, Step};
use committee::ProcessSet;
use wire::{Kind, Record, Vouch};

impl Step {
    // A move other than a delivery, which appends nothing.
    fn moves_on(process: Process) -> Step
        ensures { result ≡ moves_on process }
    {
        Step {
            process,
            answer: Answer::Moved(0),
            first: None,
            second: None,
        }
    }

    // One that appends a record.
    pub fn moves(process: Process, first: Record) -> Step
        ensures { result ≡ moves process first }
    {
        Step {
            answer: Answer::Moved(1),
            first: Some(first),
            ..Step::moves_on(process)
        }
    }

    fn moves_twice(process: Process, first: Record, second: Record) -> Step
        ensures { result ≡ moves_twice process first second }
    {
        Step {
            answer: Answer::Moved(2),
            second: Some(second),
            ..Step::moves(process, first)
        }
    }

    // A delivery that changes nothing but got.
    pub fn drops(process: Process) -> Step
        ensures { result ≡ drops process }
    {
        Step {
            answer: Answer::Dropped,
            ..Step::moves_on(process)
        }
    }

    fn heeds(process: Process) -> Step
        ensures { result ≡ heeds process }
    {
        Step {
            answer: Answer::Heeded,
            ..Step::moves_on(process)
        }
    }

    // A delivery that is heeded and changes the process.
    fn acts(process: Process) -> Step
        ensures { result ≡ acts process }
    {
        Step {
            answer: Answer::Acted(0),
            ..Step::moves_on(process)
        }
    }

    fn acts_with(process: Process, first: Record) -> Step
        ensures { result ≡ acts_with process first }
    {
        Step {
            answer: Answer::Acted(1),
            ..Step::moves(process, first)
        }
    }

    fn acts_twice(process: Process, first: Record, second: Record) -> Step
        ensures { result ≡ acts_twice process first second }
    {
        Step {
            answer: Answer::Acted(2),
            ..Step::moves_twice(process, first, second)
        }
    }
}

// A new record, which nobody has got or heeded, with no backing and no vouch. Kind, number and value go together here and
// below, and a struct of them would be a record.
fn new_record(sender: u8, to: ProcessSet, kind: Kind, number: u32, value: u16) -> Record
    ensures { result ≡ sent to sender kind number value 0 Nothing }
{
    Record {
        sender,
        kind,
        number,
        value,
        back: 0,
        vouch: Vouch::Nothing,
        to,
        got: ProcessSet::default(),
        heeded: ProcessSet::default(),
    }
}

// The set of one process.
fn only(process: u8) -> ProcessSet
    ensures { result ≡ only process }
{
    ProcessSet::default().with(process)
}

impl Seat {
    // To all processes of the committee.
    fn to_all(&self, kind: Kind, number: u32, value: u16) -> Record
        ensures { result ≡ to_all self.now.setting.committee self.now.number kind number value }
    {
        new_record(
            self.number,
            self.setting.committee.everyone(),
            kind,
            number,
            value,
        )
    }

    // To the leader of a view.
    fn to_leader(&self, leader: u8, kind: Kind, number: u32, value: u16) -> Record
        ensures { result ≡ to_one leader self.now.number kind number value }
    {
        new_record(self.number, only(leader), kind, number, value)
    }

    // How long the view timer measures.
    fn view_ticks(&self) -> u64
        ensures { result ≡ view_ticks self.now.setting }
    {
        u64::from(self.setting.overlap) + 2 * u64::from(self.setting.delay)
    }
}

impl Process {
    // Enters a view, and answers the record that tells its leader what is prepared.
    fn enter(&mut self, view: u32, sender: u8, leader: u8) -> Record
        ensures after { self.new ≡ with_core (entering view self.old.core) self.old }
        ensures told { result ≡ view_change leader sender view self.old.core }
    {
        self.core.view = view;
        self.core.step = 0;
        self.core.lead = 0;
        let prepared = self.core.prepared;
        Record {
            back: prepared.view,
            ..new_record(sender, only(leader), Kind::ViewChange, view, prepared.value)
        }
    }
}
