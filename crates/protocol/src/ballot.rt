// The three phases in which a leader gathers votes.
ghost use Rattle.std.specs.Prelude.{◌≡◌};
ghost use Rattle.protocol.specs.Voting.{phase_of, next_kind};

use wire::Kind;

#[derive(Clone, Copy, Debug, PartialEq, Eq)]
pub enum Ballot {
    Prepare,
    Precommit,
    Commit,
}

impl Ballot {
    // How far the leader is while it gathers them.
    pub(crate) fn phase(self) -> u8
        ensures { result ≡ phase_of self }
    {
        match self {
            Ballot::Prepare => 1,
            Ballot::Precommit => 2,
            Ballot::Commit => 3,
        }
    }

    // What a quorum of them leads to.
    pub(crate) fn next_kind(self) -> Kind
        ensures { result ≡ next_kind self }
    {
        match self {
            Ballot::Prepare => Kind::Precommit,
            Ballot::Precommit => Kind::Commit,
            Ballot::Commit => Kind::Decide,
        }
    }
}
