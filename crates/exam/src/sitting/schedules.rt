// A whole schedule, from its bytes to what is printed.
ghost use Rattle.std.specs.Prelude.{◌≡◌, [], map, IfOk, string_bytes, OnOk};
ghost use Rattle.std.specs.Option.{option_map};
ghost use Rattle.committee.specs.Membership.{size_for};
ghost use Rattle.moves.specs.Orders.{order_of, placed_of};
ghost use Rattle.moves.specs.declared.orders.Move.TheVariants.{Open};
ghost use Rattle.exam.specs.Rotas.{Lists};
ghost use Rattle.exam.specs.Schedules.{leads_of, rota_size, Behind, SitsFrom, Sits, Sat};
ghost use Rattle.exam.specs.Sitting.{ShowsBy};

use super::registers::RegisterKind;
use super::{Rest, faulty_of, write_opening};
use committee::{Committee, ListRota, Rota, TurnRota};
use listing::{read_to_fault, write_fault};
use moves::{Fault, Move, Opening, Placed};
use player::Outcome;
use register::{Register, Roll, Tally};
use std::alloc::{AllocError, Global};
use std::fmt;

// A list of leaders; none where the list is unlawful.
fn list_rota(heap: Global, n: u8, list: &[u8]) -> Result<Option<ListRota>, AllocError>
    ensures { IfOk result (λ o. Lists ⟦<ListRota as Rota>⟧ n list.now o) }
{
    let entries = list.to_vec(heap)?;
    Ok(ListRota::new(n, entries))
}

impl Rest<'_> {
    // With the register that OPEN names, which holds nothing yet: makes the rota, and opens the board.
    fn sit_with<G: Register>(
        self,
        heap: Global,
        opening: Opening<'_>,
        register: &mut G,
        text: &mut String,
    ) -> fmt::Result
        requires { G.Register.pairs register.old ≡ [] }
        ensures { OnOk result (Behind (ShowsBy (leads_of (size_for opening.entry.f) (option_map (λ list. list.now) opening.entry.rota)) G.Register.ROOM opening.entry (rota_size (size_for opening.entry.f) (option_map (λ list. list.now) opening.entry.rota)) self.entry) (string_bytes text.old) (string_bytes text.new)) }
    {
        let committee = match Committee::new(opening.f, faulty_of(opening)) {
            Ok(committee) => committee,
            Err(cause) => return write_opening(Outcome::Refused(cause), text),
        };
        match opening.rota {
            None => {
                let turns = TurnRota::new(&committee);
                self.open_and_sit(opening, Some(turns), register, text)
            }
            Some(list) => {
                let lists = list_rota(heap, committee.n, list)?;
                self.open_and_sit(opening, lists, register, text)
            }
        }
    }

    // The sitting that OPEN begins. A number that names no register takes a roll, and is refused once nothing else stands in the way.
    fn play_from(self, heap: Global, opening: Opening<'_>, text: &mut String) -> fmt::Result
        ensures { OnOk result (Behind (SitsFrom (order_of (Open opening.entry)) (map placed_of self.entry.moves.now) self.entry.fault) (string_bytes text.old) (string_bytes text.new)) }
    {
        match RegisterKind::try_from(opening.register).unwrap_or(RegisterKind::Roll) {
            RegisterKind::Tally => {
                let mut tally = Tally::new(heap)?;
                self.sit_with(heap, opening, &mut tally, text)
            }
            RegisterKind::Roll => {
                let mut roll = Roll::new(heap)?;
                self.sit_with(heap, opening, &mut roll, text)
            }
        }
    }
}

// The moves that were read, and the fault behind them, if there is one. The first of them is OPEN.
fn play_read(
    heap: Global,
    moves: &[Placed<'_>],
    fault: Option<Fault>,
    text: &mut String,
) -> fmt::Result
    ensures { OnOk result (Behind (Sits (map placed_of moves.now) fault) (string_bytes text.old) (string_bytes text.new)) }
{
    let Some((first, rest)) = moves.split_first() else {
        return write_fault(fault, text);
    };
    let Move::Open(opening) = first.order else {
        return Ok(());
    };
    Rest { moves: rest, fault }.play_from(heap, opening, text)
}

// Plays the schedule, and appends what is printed of it to `text`. It fails only for want of memory.
pub fn play_schedule(heap: Global, bytes: &[u8], text: &mut String) -> fmt::Result
    ensures { OnOk result (Sat bytes.now (string_bytes text.old) (string_bytes text.new)) }
{
    let mut moves = Vec::new(heap);
    let fault = read_to_fault(bytes, &mut moves)?;
    play_read(heap, moves.as_slice(), fault, text)
}
