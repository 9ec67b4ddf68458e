// Whether a process takes a record that is delivered to it.
ghost use Rattle.std.specs.Prelude.{◌≡◌};
ghost use Rattle.protocol.specs.Plans.{of_one_view, stale};
ghost use Rattle.admission.specs.Seating.{Admits};

use protocol::Process;
use protocol::process::Phase;
use refusals::Refusal;
use wire::{Kind, Record};

// Kinds 6 to 12 belong to one view.
fn is_of_one_view(kind: Kind) -> bool
    ensures { result ≡ of_one_view kind }
{
    (Kind::ViewChange..=Kind::CommitVote).contains(&kind)
}

// The kinds of certification go to whoever has proposed, the others to whoever runs; and no view is ahead of the process.
pub fn admit(process: &Process, delivered: &Record) -> Result<(), Refusal>
    ensures { Admits process.now delivered.now result }
{
    let phase = process.certification.phase;
    let untimely = if delivered.kind <= Kind::Certificate {
        phase == Phase::Idle
    } else {
        phase != Phase::Running
    };
    if untimely {
        return Err(Refusal::Untimely);
    }
    if is_of_one_view(delivered.kind) && process.core.view < delivered.number {
        return Err(Refusal::ViewAhead);
    }
    Ok(())
}

// Certification is over for a process that runs, and so is a view before its own.
pub fn is_stale(process: &Process, delivered: &Record) -> bool
    ensures { result ≡ stale process.now delivered.now }
{
    let running = process.certification.phase == Phase::Running;
    delivered.kind <= Kind::Certificate && running
        || is_of_one_view(delivered.kind) && delivered.number < process.core.view
}
