// The tags of the fields, and how long the content behind each is.
ghost use Rattle.std.specs.Prelude.{◌≡◌};
ghost use Rattle.std.specs.Option.{ok_or};
ghost use Rattle.refusals.specs.declared.causes.Refusal.TheVariants.{UnknownTag};
ghost use Rattle.schedule.specs.Tags.{tag_of, right_length};

use refusals::Refusal;

#[derive(Clone, Copy, Debug, PartialEq, Eq)]
pub enum Tag {
    Open,
    Rota,
    Propose,
    Tick,
    Expire,
    Deliver,
    Inject,
}

impl TryFrom<u8> for Tag {
    type Error = Refusal;

    ghost try_from_gives = { λ byte result. result ≡ ok_or (tag_of byte) UnknownTag };

    fn try_from(byte: u8) -> Result<Tag, Refusal> {
        match byte {
            0x01 => Ok(Tag::Open),
            0x02 => Ok(Tag::Rota),
            0x10 => Ok(Tag::Propose),
            0x11 => Ok(Tag::Tick),
            0x12 => Ok(Tag::Expire),
            0x13 => Ok(Tag::Deliver),
            0x14 => Ok(Tag::Inject),
            _ => Err(Refusal::UnknownTag),
        }
    }
}

impl Tag {
    pub fn allows(self, length: usize) -> bool
        ensures { result ≡ right_length self length }
    {
        match self {
            Tag::Open => length == 14,
            Tag::Rota => matches!(length, 1..=31),
            Tag::Propose | Tag::Deliver => length == 3,
            Tag::Tick => length == 5,
            Tag::Expire => length == 2,
            Tag::Inject => length == 17,
        }
    }
}
