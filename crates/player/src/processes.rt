// Where the processes stand at the end of a sitting.
ghost use Rattle.std.specs.Prelude.{◌≡◌, [], ◌++◌, take, if◌then◌else◌, string_bytes, OnOk};
ghost use Rattle.protocol.specs.Processes.{running};
ghost use Rattle.player.specs.Outcomes.{process_line, process_lines};

use protocol::process::Phase;
use protocol::{Process, Table};
use std::fmt;

// The line of a process that runs: its number, epoch, view and decision.
fn write_process(number: usize, process: &Process, text: &mut String) -> fmt::Result
    ensures { OnOk result (string_bytes text.new ≡ string_bytes text.old ++ (if running process.now.certification.phase then process_line number process.now else [])) }
{
    if process.certification.phase != Phase::Running {
        return Ok(());
    }
    let epoch = process.synchronizer.epoch;
    let view = process.core.view;
    let decided = process.core.decided;
    writeln!(text, "p {number} {epoch} {view} {decided}")?;
    Ok(())
}

// Appends a line for each process that runs, from the lowest number up.
#[tactic(auto, using(crate::proofs::Standing::standing))]
pub fn write_processes(table: &Table, text: &mut String) -> fmt::Result
    ensures { OnOk result (string_bytes text.new ≡ string_bytes text.old ++ process_lines 0 (take table.now.setting.committee.n table.now.processes)) }
{
    let members = table.members();
    // Numbered by `enumerate`, and so as `usize`: over `(0..n).zip(members)` the proof did not close.
    for (number, process) in members.iter().enumerate() {
        write_process(number, process, text)?;
    }
    Ok(())
}
