// Carrying out a step, for every move: nothing else writes to a board, a wire or a register. These are lent one by one, as
// calls lend them: a struct of three loans would have to say of each that it ends as what it was lent from.
ghost use Rattle.std.specs.Prelude.{◌≡◌, ◌<◌, ◌≤◌, true, length, is_some, Ok, ◌≢◌};
ghost use Rattle.wire.specs.Shares.{share_of};
ghost use Rattle.protocol.specs.Moments.{moment, signed_of, with_share, appended, done, marked};
ghost use Rattle.protocol.specs.Ready.{Doable};

pub mod moves;

use protocol::{Answer, Step, Table};
use register::{Pair, Register};
use wire::Record;

// Signs the share of a record, if it has one, in the name of its sender.
fn sign_share<G: Register>(register: &mut G, sent: &Record)
    requires known { sent.now.sender ≤ 30 }
    requires free { is_some (share_of sent.now) ≡ true → length (G.Register.pairs register.old) ≢ G.Register.ROOM }
    ensures { signed_of (G.Register.pairs register.new) ≡ with_share sent.now (signed_of (G.Register.pairs register.old)) }
{
    if let Some(statement) = sent.share() {
        let _ = register.sign(Pair {
            process: sent.sender,
            statement,
        });
    }
}

// Writes a record behind the used ones, and signs its share.
fn append<G: Register>(table: &mut Table, wire: &mut [Record], register: &mut G, sent: Record)
    requires within { table.old.used < length wire.old }
    requires capped { table.old.used < 65535 }
    requires known { sent.sender ≤ 30 }
    requires free { is_some (share_of sent) ≡ true → length (G.Register.pairs register.old) ≢ G.Register.ROOM }
    ensures { moment table.new wire.new (signed_of (G.Register.pairs register.new)) ≡ appended sent (moment table.old wire.old (signed_of (G.Register.pairs register.old))) }
{
    wire[usize::from(table.used)] = sent;
    table.used += 1;
    sign_share(register, &sent);
}

// The process takes its new fields, and the step's records are appended; what the step answers is handed on.
fn carry_out<G: Register>(
    table: &mut Table,
    wire: &mut [Record],
    register: &mut G,
    process: u8,
    step: Step,
) -> Answer
    requires { Doable G.Register.ROOM process (moment table.old wire.old (signed_of (G.Register.pairs register.old))) (Ok step) }
    ensures leaves { moment table.new wire.new (signed_of (G.Register.pairs register.new)) ≡ done process step (moment table.old wire.old (signed_of (G.Register.pairs register.old))) }
    ensures answers { result ≡ step.answer }
{
    table.processes[usize::from(process)] = step.process;
    if let Some(sent) = step.first {
        append(table, wire, register, sent);
    }
    if let Some(sent) = step.second {
        append(table, wire, register, sent);
    }
    step.answer
}

// The process has got the record, and has heeded it or not.
fn mark(wire: &mut [Record], index: u16, process: u8, heed: bool)
    requires { index < length wire.old }
    ensures { wire.new ≡ marked process index heed wire.old }
{
    let delivered = &mut wire[usize::from(index)];
    delivered.got = delivered.got.with(process);
    if heed {
        delivered.heeded = delivered.heeded.with(process);
    }
}
