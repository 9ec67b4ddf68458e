// The two stages at which a process that is shown a quorum votes again.
ghost use Rattle.std.specs.Prelude.{◌≡◌};
ghost use Rattle.protocol.specs.Voting.{step_of, vote_of};

use wire::Kind;

#[derive(Clone, Copy, Debug, PartialEq, Eq)]
pub enum Stage {
    Precommit,
    Commit,
}

impl Stage {
    // How far the process is as a voter once it has voted.
    pub(crate) fn step(self) -> u8
        ensures { result ≡ step_of self }
    {
        match self {
            Stage::Precommit => 2,
            Stage::Commit => 3,
        }
    }

    pub(crate) fn vote(self) -> Kind
        ensures { result ≡ vote_of self }
    {
        match self {
            Stage::Precommit => Kind::PrecommitVote,
            Stage::Commit => Kind::CommitVote,
        }
    }
}
