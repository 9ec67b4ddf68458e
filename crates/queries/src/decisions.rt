// The decision that a board shows, and what every run promises of it.
ghost use Rattle.std.specs.Prelude.{◌≡◌, ◌≤◌, ◌&&◌, length, nat_lt};
ghost use Rattle.committee.specs.Thresholds.{is_correct};
ghost use Rattle.protocol.specs.Runs.{sitting, Run};
ghost use Rattle.safety.specs.Promises.{Promise};
ghost use Rattle.queries.specs.Asking.{first_decided, decision_answer};

use admission::find_order;
use committee::{Committee, Rota};
use protocol::{Board, Process};
use refusals::Refusal;
use register::Register;
use wire::Record;

// A correct process that has decided.
fn has_decided(process: &Process, number: u8, committee: &Committee) -> bool
    ensures { result ≡ (is_correct committee.now number && nat_lt 0 process.now.core.decided) }
{
    !committee.faulty.contains(number) && 0 < process.core.decided
}

fn first_decided(members: &[Process], committee: &Committee) -> Option<u16>
    requires { length members.now ≤ 31 }
    ensures { result ≡ first_decided committee.now 0 members.now }
{
    // Counted by a range of bytes beside the members, the proof did not close.
    for (number, process) in members.iter().enumerate() {
        // There are 31 members at most, so the cast changes no number.
        if has_decided(process, number as u8, committee) {
            return Some(process.core.decided);
        }
    }
    None
}

// The value that the first correct process to have one has decided. Where the sitting is a run it is the one decision of
// all correct processes, and whatever else is promised of runs holds too.
pub fn decision<R: Rota, G: Register>(
    board: &Board<R>,
    wire: &[Record],
    register: &G,
) -> Result<Option<u16>, Refusal>
    ensures value { result ≡ decision_answer (R.Rota.size board.now.rota) board.now.table wire.now }
    ensures promises { Run R.Rota G.Register (sitting board.now wire.now register.now) → Promise R.Rota G.Register (sitting board.now wire.now register.now) }
{
    find_order(board, wire)?;
    let committee = board.table.setting.committee;
    Ok(first_decided(board.table.members(), &committee))
}
