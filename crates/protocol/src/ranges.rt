// Whether a process, a board and the used part of a wire are in range.
ghost use Rattle.std.specs.Prelude.{◌≡◌, take};
ghost use Rattle.std.specs.List.{list_all};
ghost use Rattle.wire.specs.Ranges.{in_range};
ghost use Rattle.protocol.specs.Ranges.{standing_fits, clock_fits, votes_fit, values_fit, process_fits, setting_fits, table_fits, wire_fits};

use crate::board::{Setting, Table};
use crate::process::{Phase, Process};
use committee::Committee;
pub use committee::views::LAST_EPOCH;
use committee::views::LAST_VIEW;
use wire::{Record, Vouch};

// The end of every clock.
pub const LAST_TICK: u64 = 1 << 40;

const LAST_DEADLINE: u64 = (1 << 40) + 3_000_000;

const LONGEST_DURATION: u32 = 1_000_000;

impl Process {
    // For a committee with this f.
    fn in_range(&self, f: u8) -> bool
        ensures { result ≡ process_fits f self.now }
    {
        self.standing_fits(f) && self.clock_fits() && self.votes_fit() && self.values_fit()
    }

    fn standing_fits(&self, f: u8) -> bool
        ensures { result ≡ standing_fits f self.now }
    {
        let at = self.synchronizer;
        let view = self.core.view;
        if self.certification.phase == Phase::Running {
            (1..=LAST_EPOCH).contains(&at.epoch)
                && 1 <= at.place
                && at.place - 1 <= f
                && (1..=LAST_VIEW).contains(&view)
        } else {
            at.epoch == 0 && at.place == 0 && view == 0 && at.due == 0 && at.spread == 0
        }
    }

    fn clock_fits(&self) -> bool
        ensures { result ≡ clock_fits self.now }
    {
        let at = self.synchronizer;
        at.clock <= LAST_TICK && at.due <= LAST_DEADLINE && at.spread <= LAST_DEADLINE
    }

    fn votes_fit(&self) -> bool
        ensures { result ≡ votes_fit self.now }
    {
        let core = self.core;
        core.prepared.view <= LAST_VIEW
            && (core.prepared.view == 0) == (core.prepared.value == 0)
            && core.locked.view <= LAST_VIEW
            && core.step <= 3
            && core.lead <= 4
    }

    fn values_fit(&self) -> bool
        ensures { result ≡ values_fit self.now }
    {
        let values = self.certification;
        (values.phase == Phase::Idle || values.proposal > 0)
            && (values.phase != Phase::Running
                || values.offer > 0 && values.vouch != Vouch::Nothing)
    }
}

impl Setting {
    // The two durations.
    pub fn in_range(&self) -> bool
        ensures { result ≡ setting_fits self.now }
    {
        (1..=LONGEST_DURATION).contains(&self.delay)
            && (1..=LONGEST_DURATION).contains(&self.overlap)
    }
}

// Two functions of a line each: written into the tests below, the proof of these did not close.
fn processes_fit(processes: &[Process], f: u8) -> bool
    ensures { result ≡ list_all (process_fits f) processes.now }
{
    processes.iter().all(|process| process.in_range(f))
}

fn records_fit(records: &[Record], committee: &Committee) -> bool
    ensures { result ≡ list_all (in_range committee.now.n) records.now }
{
    records.iter().all(|record| record.in_range(committee))
}

impl Table {
    // The processes of the committee.
    pub fn members(&self) -> &[Process]
        ensures { result.now ≡ take self.now.setting.committee.n self.now.processes }
    {
        &self.processes[..usize::from(self.setting.committee.n)]
    }

    // The durations, and each process of the committee.
    pub fn in_range(&self) -> bool
        ensures { result ≡ table_fits self.now }
    {
        let committee = self.setting.committee;
        self.setting.in_range() && processes_fit(self.members(), committee.f)
    }

    // As many records as are used are there, and each of them is in range.
    pub fn wire_in_range(&self, wire: &[Record]) -> bool
        ensures { result ≡ wire_fits self.now wire.now }
    {
        let used = usize::from(self.used);
        used <= wire.len() && records_fit(&wire[..used], &self.setting.committee)
    }
}
