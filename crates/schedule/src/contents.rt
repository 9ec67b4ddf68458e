// The numbers in the content of a field.
ghost use Rattle.std.specs.Prelude.{◌≡◌};
ghost use Rattle.std.specs.Option.{option_map};
ghost use Rattle.moves.specs.Orders.{order_of};
ghost use Rattle.schedule.specs.Moves.{opened, injected, later_order};
ghost use Rattle.moves.specs.declared.orders.Move.TheVariants.{Open, Inject};

use super::numbers::{byte_at, four_at, two_at};
use super::tags::Tag;
use moves::{Injection, Move, Opening};

pub(crate) fn opening<'a>(content: &[u8], rota: Option<&'a [u8]>) -> Opening<'a>
    ensures { order_of (Open result) ≡ opened content.now (option_map (λ list. list.now) rota.entry) }
{
    Opening {
        register: byte_at(content, 0),
        f: byte_at(content, 1),
        faulty: four_at(content, 2),
        delay: four_at(content, 6),
        overlap: four_at(content, 10),
        rota,
    }
}

fn injection(content: &[u8]) -> Injection
    ensures { order_of (Inject result) ≡ injected content.now }
{
    Injection {
        sender: byte_at(content, 0),
        kind: byte_at(content, 1),
        to: four_at(content, 2),
        number: four_at(content, 6),
        value: two_at(content, 10),
        back: four_at(content, 12),
        vouch: byte_at(content, 16),
    }
}

// The move of a field that is not the first, if there is one.
pub(crate) fn later_order<'a>(content: &'a [u8], tag: Tag) -> Option<Move<'a>>
    ensures { option_map order_of result ≡ later_order tag content.now }
{
    match tag {
        Tag::Open | Tag::Rota => None,
        Tag::Propose => Some(Move::Propose {
            process: byte_at(content, 0),
            value: two_at(content, 1),
        }),
        Tag::Tick => Some(Move::Tick {
            process: byte_at(content, 0),
            ticks: four_at(content, 1),
        }),
        Tag::Expire => Some(Move::Expire {
            process: byte_at(content, 0),
            timer: byte_at(content, 1),
        }),
        Tag::Deliver => Some(Move::Deliver {
            record: two_at(content, 0),
            process: byte_at(content, 2),
        }),
        Tag::Inject => Some(Move::Inject(injection(content))),
    }
}
