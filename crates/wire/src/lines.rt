// The printed line of a record: index, sender, kind name, number and value.
ghost use Rattle.std.specs.Prelude.{◌≡◌};
ghost use Rattle.wire.specs.Lines.{columns_of, line_of};

use crate::record::Record;
use arrayvec::ArrayString;
use itoa::Buffer;

impl Record {
    // The columns, with one blank between. Pushed one by one: `write!` would answer an error that cannot come.
    fn columns(&self, index: u16) -> ArrayString<48>
        ensures { result.bytes ≡ columns_of index self.now }
    {
        let mut digits = Buffer::new();
        let mut text = ArrayString::new();
        text.push_str(digits.format(index));
        text.push(' ');
        text.push_str(digits.format(self.sender));
        text.push(' ');
        text.push_str(self.kind.name());
        text.push(' ');
        text.push_str(digits.format(self.number));
        text.push(' ');
        text.push_str(digits.format(self.value));
        text
    }

    // The line of the record that stands at this place of the wire.
    pub fn line(&self, index: u16) -> [u8; 48]
        ensures { result ≡ line_of index self.now }
    {
        let text = self.columns(index);
        let mut line = [b' '; 48];
        line[..text.len()].copy_from_slice(text.as_bytes());
        line
    }
}
