// A process of a board with what its rules read of the board, and as much of its being in range as they rest on.
ghost use Rattle.std.specs.Prelude.{◌^◌, ◌<◌, ◌≤◌};
ghost use Rattle.committee.specs.Views.{last_view};

use crate::board::Setting;
use crate::process::Process;
use wire::Record;

#[derive(Clone, Copy)]
pub struct Seat {
    pub setting: Setting,
    // The process's number.
    pub number: u8,
    pub process: Process,
    ghost member: { number < setting.committee.n },
    ghost delay: { setting.delay ≤ 1000000 },
    ghost overlap: { setting.overlap ≤ 1000000 },
    ghost epoch: { process.synchronizer.epoch ≤ 65535 },
    ghost clock: { process.synchronizer.clock ≤ 2 ^ 40 },
}

// A record that is delivered to the process; its number is a view or an epoch that there is, or 0.
#[derive(Clone, Copy)]
pub struct Delivery {
    pub seat: Seat,
    pub delivered: Record,
    ghost small: { delivered.number ≤ last_view },
}
