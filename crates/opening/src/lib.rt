// Opening a board.
#![tactic(auto)]

ghost use Rattle.std.specs.Prelude.{length, IfOk};
ghost use Rattle.protocol.specs.Opening.{Opens};
ghost use Rattle.safety.specs.Promises.{Begins};

use committee::{Committee, ProcessSet, Rota};
use protocol::{Board, Process, Setting, Table};
use refusals::Refusal;
use register::Register;

// A new board for a committee of 3f + 1 processes, δ and Δ, with its rota; an unlawful list of leaders comes as no rota.
pub fn open<R: Rota + Drop, G: Register>(
    f: u8,
    faulty: ProcessSet,
    delay: u32,
    overlap: u32,
    rota: Option<R>,
    register: &G,
) -> Result<Board<R>, Refusal>
    ensures exact { Opens R.Rota f faulty delay overlap rota (length (G.Register.pairs register.now)) result }
    ensures begins { IfOk result (λ b. Begins R.Rota G.Register b register.now) }
{
    let committee = Committee::new(f, faulty)?;
    let setting = Setting {
        committee,
        delay,
        overlap,
    };
    if !setting.in_range() {
        return Err(Refusal::DurationOutOfRange);
    }
    if register.held() != 0 {
        return Err(Refusal::RegisterNotEmpty);
    }
    let Some(rota) = rota else {
        return Err(Refusal::RotaUnfit);
    };
    if rota.size() != committee.n {
        return Err(Refusal::RotaUnfit);
    }
    let table = Table {
        setting,
        processes: [Process::default(); 31],
        used: 0,
    };
    Ok(Board { table, rota })
}
