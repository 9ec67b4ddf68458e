// The field layer: a tag, a length and so many bytes of content, wherever they stand in a schedule.
ghost use Rattle.schedule.specs.Fields.{HandsOut};

use super::numbers::two_at;
use moves::{Fault, Layer};
use refusals::Refusal;

// The tag and the two bytes of the length stand before the content.
pub(crate) const HEAD: usize = 3;

#[derive(Clone, Copy, Debug, PartialEq, Eq)]
pub struct Field<'a> {
    // The place of the tag in the schedule.
    pub byte: usize,
    // A number, since any byte may stand there: the move layer says what it stands for.
    pub tag: u8,
    // The part of the schedule behind the tag and the length.
    pub content: &'a [u8],
}

// The field whose tag stands at `byte`.
pub fn field_at<'a>(bytes: &'a [u8], byte: usize) -> Result<Field<'a>, Fault>
    ensures { HandsOut bytes.now byte result }
{
    let cut = Fault {
        cause: Refusal::CutShort,
        byte,
        layer: Layer::Field,
    };
    let tag = *bytes.get(byte).ok_or(cut)?;
    let length = usize::from(two_at(bytes, byte + 1));
    let start = byte + HEAD;
    let content = bytes.get(start..start + length).ok_or(cut)?;
    Ok(Field { byte, tag, content })
}
