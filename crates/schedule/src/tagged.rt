// What the move layer knows of a field: what its tag stands for, and that its content is as long as the tag allows.
ghost use Rattle.std.specs.Prelude.{◌≡◌, length, ◌==◌};
ghost use Rattle.schedule.specs.Fields.{behind_at, known, move_fault, IsTagged};
ghost use Rattle.schedule.specs.Moves.{Makes, made_at, open_at};

use super::contents::{later_order, opening};
use super::field::{Field, HEAD, field_at};
use super::numbers::byte_at;
use super::tags::Tag;
use moves::{Fault, Layer, Move};
use refusals::Refusal;

// A field, and the schedule in which it stands.
#[derive(Clone, Copy)]
pub(crate) struct Tagged<'a> {
    schedule: &'a [u8],
    field: Field<'a>,
    tag: Tag,
    ghost stands: { IsTagged schedule.now field.byte field tag },
}

impl Field<'_> {
    // The fault of this field that the move layer finds.
    fn fault(&self, cause: Refusal) -> Fault
        ensures { result ≡ move_fault cause self.now.byte }
    {
        Fault {
            cause,
            byte: self.byte,
            layer: Layer::Move,
        }
    }

    // What the tag stands for, or why it is no field of a schedule.
    fn known_tag(&self) -> Result<Tag, Fault>
        ensures { result ≡ known self.now.tag (length self.now.content.now) self.now.byte }
    {
        // By `map_err` and `?` the proof did not close.
        match Tag::try_from(self.tag) {
            Ok(tag) if tag.allows(self.content.len()) => Ok(tag),
            Ok(_) => Err(self.fault(Refusal::WrongLength)),
            Err(cause) => Err(self.fault(cause)),
        }
    }
}

impl<'a> Tagged<'a> {
    ghost use Rattle.schedule.specs.Tagging.{HandsTagged};

    // The field at `byte`, where there is such a tag and it goes with so much content.
    pub(crate) fn at(schedule: &'a [u8], byte: usize) -> Result<Tagged<'a>, Fault>
        ensures { HandsTagged schedule.now byte result }
    {
        let field = field_at(schedule, byte)?;
        let tag = field.known_tag()?;
        Ok(Tagged {
            schedule,
            field,
            tag,
        })
    }

    // The place behind the content.
    fn end(&self) -> usize
        ensures { result ≡ behind_at self.now.schedule.now self.now.field.byte }
    {
        self.field.byte + HEAD + self.field.content.len()
    }

    fn is_first(&self) -> bool
        ensures { result ≡ (self.now.field.byte == 0) }
    {
        self.field.byte == 0
    }

    // OPEN, with the list in the ROTA right behind it, if there is one, and the place behind both.
    fn open_move(&self) -> Result<(Move<'a>, usize), Fault>
        ensures { Makes (open_at self.now.schedule.now self.now.field.byte) result }
    {
        let content = self.field.content;
        let end = self.end();
        if Tag::try_from(byte_at(self.schedule, end)) != Ok(Tag::Rota) {
            return Ok((Move::Open(opening(content, None)), end));
        }
        let rota = Tagged::at(self.schedule, end)?;
        let list = rota.field.content;
        Ok((Move::Open(opening(content, Some(list))), rota.end()))
    }

    // The move that begins with this field, and the place behind it.
    pub(crate) fn move_of(&self) -> Result<(Move<'a>, usize), Fault>
        ensures { Makes (made_at self.now.schedule.now self.now.field.byte self.now.tag) result }
    {
        if self.is_first() {
            return match self.tag {
                Tag::Open => self.open_move(),
                _ => Err(self.field.fault(Refusal::OutOfPlace)),
            };
        }
        let Some(order) = later_order(self.field.content, self.tag) else {
            return Err(self.field.fault(Refusal::OutOfPlace));
        };
        Ok((order, self.end()))
    }
}
