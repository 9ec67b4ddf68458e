// The thirteen kinds of record.
#[derive(Clone, Copy, Debug, PartialEq, Eq, PartialOrd, Ord)]
pub enum Kind {
    Disclose = 1,
    AllowAny = 2,
    Certificate = 3,
    EpochCompleted = 4,
    EnterEpoch = 5,
    ViewChange = 6,
    Prepare = 7,
    PrepareVote = 8,
    Precommit = 9,
    PrecommitVote = 10,
    Commit = 11,
    CommitVote = 12,
    Decide = 13,
}
