// Moves and faults as lines of text, all numbers in decimal.
ghost use Rattle.std.specs.List.{flat_map};
ghost use Rattle.std.specs.Option.{option_map};
ghost use Rattle.std.specs.Prelude.{Some};
ghost use Rattle.moves.specs.Orders.{order_of, placed_of};
ghost use Rattle.moves.specs.Texts.{fault_text, order_text, placed_text, rota_text, spaced};
ghost use Rattle.moves.specs.declared.orders.Move.TheVariants.{Inject, Open};

use super::faults::Fault;
use super::orders::{Injection, Move, Opening, Placed};
use std::fmt;

// The processes of a rota, with a blank before each.
#[derive(Drop)]
struct Processes<'a>(&'a [u8]);

impl fmt::Display for Processes<'_> {
    ghost output = { λ list. Some (flat_map spaced list.0.now) };

    fn fmt<W: fmt::Write>(&self, f: &mut fmt::Formatter<W>) -> fmt::Result {
        for process in self.0 {
            write!(f, " {process}")?;
        }
        Ok(())
    }
}

// What is printed behind the numbers of OPEN.
#[derive(Drop)]
struct Behind<'a>(Option<&'a [u8]>);

impl fmt::Display for Behind<'_> {
    ghost output = { λ behind. Some (rota_text (option_map (λ list. list.now) behind.0)) };

    fn fmt<W: fmt::Write>(&self, f: &mut fmt::Formatter<W>) -> fmt::Result {
        match self.0 {
            Some(list) => {
                let processes = Processes(list);
                write!(f, " ROTA{processes}")
            }
            None => Ok(()),
        }
    }
}

impl fmt::Display for Opening<'_> {
    ghost output = { λ opening. Some (order_text (order_of (Open opening))) };

    fn fmt<W: fmt::Write>(&self, f: &mut fmt::Formatter<W>) -> fmt::Result {
        let Opening {
            register,
            f: most_faulty,
            faulty,
            delay,
            overlap,
            rota,
        } = *self;
        let behind = Behind(rota);
        write!(
            f,
            "OPEN {register} {most_faulty} {faulty} {delay} {overlap}{behind}"
        )
    }
}

impl fmt::Display for Injection {
    ghost output = { λ injection. Some (order_text (order_of (Inject injection))) };

    fn fmt<W: fmt::Write>(&self, f: &mut fmt::Formatter<W>) -> fmt::Result {
        let Injection {
            sender,
            kind,
            to,
            number,
            value,
            back,
            vouch,
        } = *self;
        write!(
            f,
            "INJECT {sender} {kind} {to} {number} {value} {back} {vouch}"
        )
    }
}

impl fmt::Display for Move<'_> {
    ghost output = { λ order. Some (order_text (order_of order)) };

    fn fmt<W: fmt::Write>(&self, f: &mut fmt::Formatter<W>) -> fmt::Result {
        match *self {
            Move::Open(opening) => write!(f, "{opening}"),
            Move::Propose { process, value } => write!(f, "PROPOSE {process} {value}"),
            Move::Tick { process, ticks } => write!(f, "TICK {process} {ticks}"),
            Move::Expire { process, timer } => write!(f, "EXPIRE {process} {timer}"),
            Move::Deliver { record, process } => write!(f, "DELIVER {record} {process}"),
            Move::Inject(injection) => write!(f, "{injection}"),
        }
    }
}

impl fmt::Display for Placed<'_> {
    ghost output = { λ placed. Some (placed_text (placed_of placed)) };

    fn fmt<W: fmt::Write>(&self, f: &mut fmt::Formatter<W>) -> fmt::Result {
        let Placed { byte, order } = *self;
        write!(f, "{byte} {order}")
    }
}

impl fmt::Display for Fault {
    ghost output = { λ fault. Some (fault_text fault) };

    fn fmt<W: fmt::Write>(&self, f: &mut fmt::Formatter<W>) -> fmt::Result {
        write!(f, "fault {} {}", self.cause, self.byte)
    }
}
