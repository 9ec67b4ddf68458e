// What a process can sign, by the number that its statements have.
ghost use Rattle.std.specs.Prelude.{◌≡◌};
ghost use Rattle.wire.specs.Shares.{share_number, statement};

use register::Statement;

#[derive(Clone, Copy, Debug, PartialEq, Eq)]
pub(crate) enum Share {
    Disclose = 1,
    AllowAny = 2,
    EpochCompleted = 3,
    Prepare = 4,
    Precommit = 5,
    Commit = 6,
}

impl Share {
    pub(crate) fn statement(self, number: u32, value: u16) -> Statement
        ensures { result ≡ statement (share_number self) number value }
    {
        Statement {
            kind: self as u8,
            number,
            value,
        }
    }
}
