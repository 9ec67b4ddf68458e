// The move layer: one move after another, from the first byte of a schedule to its end or first fault.
ghost use Rattle.std.specs.Prelude.{◌≡◌};
ghost use Rattle.schedule.specs.Reading.{ReadsOne};

use super::tagged::Tagged;
use moves::{Fault, Placed};

#[derive(Clone, Copy, Debug, PartialEq, Eq)]
pub struct Reader<'a> {
    bytes: &'a [u8],
    // The place behind what was read.
    at: usize,
}

impl<'a> Reader<'a> {
    pub fn new(bytes: &'a [u8]) -> Reader<'a>
        ensures { (result.bytes ≡ bytes.entry) × (result.at ≡ 0) }
    {
        Reader { bytes, at: 0 }
    }

    // The next move, or nothing at the end. On a fault the reader stays where it is: as an iterator it would have no end.
    pub fn next_move(&mut self) -> Result<Option<Placed<'a>>, Fault>
        ensures { ReadsOne self.old result self.new }
    {
        if self.at >= self.bytes.len() {
            return Ok(None);
        }
        let (order, next) = Tagged::at(self.bytes, self.at)?.move_of()?;
        let byte = self.at;
        self.at = next;
        Ok(Some(Placed { byte, order }))
    }
}
