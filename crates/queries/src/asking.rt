// The words of an epoch, the line of a record, and who leads a view and where it stands.
ghost use Rattle.std.specs.Prelude.{◌≡◌, ◌≤◌, not, ◌&&◌, length, sum_by};
ghost use Rattle.wire.specs.Words.{no_epoch};
ghost use Rattle.agreement.specs.Words.{is_charged};
ghost use Rattle.queries.specs.Asking.{charge, words_answer, line_answer, leader_answer, place_answer};

use admission::find_order;
use committee::{Committee, Rota};
use protocol::Board;
use protocol::ranges::LAST_EPOCH;
use refusals::Refusal;
use wire::Record;

// What the record adds to the words of the epoch: it counts if a correct process sent it and it belongs to the epoch.
fn charge(sent: &Record, committee: &Committee, epoch: u32) -> u32
    ensures value { result ≡ charge committee.now epoch sent.now }
    ensures few { result ≤ 32 }
{
    if sent.epoch(committee) == Ok(epoch) && !committee.faulty.contains(sent.sender) {
        sent.words()
    } else {
        0
    }
}

fn charged(used: &[Record], committee: &Committee, epoch: u32) -> u32
    requires { length used.now ≤ 65535 }
    ensures { result ≡ sum_by (charge committee.now epoch) used.now }
{
    used.iter().map(|sent| charge(sent, committee, epoch)).sum()
}

// The words that correct processes have spent on an epoch; epoch 0 is certification.
#[tactic(auto, using(crate::proofs::Charging::charges))]
pub fn words<R: Rota>(board: &Board<R>, wire: &[Record], epoch: u32) -> Result<u32, Refusal>
    ensures { result ≡ words_answer (R.Rota.size board.now.rota) board.now.table wire.now epoch }
{
    find_order(board, wire)?;
    if epoch > LAST_EPOCH {
        return Err(Refusal::FieldOutOfRange);
    }
    let used = &wire[..usize::from(board.table.used)];
    Ok(charged(used, &board.table.setting.committee, epoch))
}

// The printed line of a record.
pub fn line<R: Rota>(board: &Board<R>, wire: &[Record], index: u16) -> Result<[u8; 48], Refusal>
    ensures { result ≡ line_answer (R.Rota.size board.now.rota) board.now.table wire.now index }
{
    find_order(board, wire)?;
    if index >= board.table.used {
        return Err(Refusal::NoSuchRecord);
    }
    Ok(wire[usize::from(index)].line(index))
}

pub fn leader<R: Rota>(board: &Board<R>, wire: &[Record], view: u32) -> Result<u8, Refusal>
    ensures { result ≡ leader_answer (R.Rota.leader board.now.rota) (R.Rota.size board.now.rota) board.now.table wire.now view }
{
    find_order(board, wire)?;
    board.table.setting.committee.epoch_place(view)?;
    Ok(board.rota.leader(view))
}

// Epoch and place of a view.
pub fn place<R: Rota>(board: &Board<R>, wire: &[Record], view: u32) -> Result<(u32, u8), Refusal>
    ensures { result ≡ place_answer (R.Rota.size board.now.rota) board.now.table wire.now view }
{
    find_order(board, wire)?;
    let council = board.table.setting.committee;
    council.epoch_place(view)
}
