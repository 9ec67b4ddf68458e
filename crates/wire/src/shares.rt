// What the sender of a record signs.
ghost use Rattle.std.specs.Prelude.{◌≡◌};
ghost use Rattle.wire.specs.Shares.{share_of};

use crate::kind::Kind;
use crate::record::Record;
use crate::share::Share;
use register::Statement;

impl Record {
    pub fn share(&self) -> Option<Statement>
        ensures { result ≡ share_of self.now }
    {
        let (share, number, value) = match self.kind {
            Kind::Disclose => (Share::Disclose, 0, self.value),
            Kind::AllowAny => (Share::AllowAny, 0, 0),
            Kind::EpochCompleted => (Share::EpochCompleted, self.number, 0),
            Kind::PrepareVote => (Share::Prepare, self.number, self.value),
            Kind::PrecommitVote => (Share::Precommit, self.number, self.value),
            Kind::CommitVote => (Share::Commit, self.number, self.value),
            _ => return None,
        };
        Some(share.statement(number, value))
    }
}
