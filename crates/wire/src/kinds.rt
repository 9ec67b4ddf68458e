// A kind's number and name.
ghost use Rattle.std.specs.Prelude.{◌≡◌, ◌≤◌, length};
ghost use Rattle.wire.specs.Kinds.{kind_number, kind_name, kind_of, in_field};

use crate::kind::Kind;
use refusals::Refusal;

impl From<Kind> for u8 {
    ghost from_gives = { λ kind number. number ≡ kind_number kind };

    fn from(kind: Kind) -> u8 {
        kind as u8
    }
}

impl TryFrom<u8> for Kind {
    type Error = Refusal;

    ghost try_from_gives = { λ number kind. kind ≡ in_field (kind_of number) };

    fn try_from(number: u8) -> Result<Kind, Refusal> {
        Ok(match number {
            1 => Kind::Disclose,
            2 => Kind::AllowAny,
            3 => Kind::Certificate,
            4 => Kind::EpochCompleted,
            5 => Kind::EnterEpoch,
            6 => Kind::ViewChange,
            7 => Kind::Prepare,
            8 => Kind::PrepareVote,
            9 => Kind::Precommit,
            10 => Kind::PrecommitVote,
            11 => Kind::Commit,
            12 => Kind::CommitVote,
            13 => Kind::Decide,
            _ => return Err(Refusal::FieldOutOfRange),
        })
    }
}

impl Kind {
    // The name that is printed.
    pub fn name(self) -> &'static str
        ensures value { result.now ≡ kind_name self }
        ensures short { length result.now ≤ 15 }
    {
        match self {
            Kind::Disclose => "DISCLOSE",
            Kind::AllowAny => "ALLOW-ANY",
            Kind::Certificate => "CERTIFICATE",
            Kind::EpochCompleted => "EPOCH-COMPLETED",
            Kind::EnterEpoch => "ENTER-EPOCH",
            Kind::ViewChange => "VIEW-CHANGE",
            Kind::Prepare => "PREPARE",
            Kind::PrepareVote => "PREPARE-VOTE",
            Kind::Precommit => "PRECOMMIT",
            Kind::PrecommitVote => "PRECOMMIT-VOTE",
            Kind::Commit => "COMMIT",
            Kind::CommitVote => "COMMIT-VOTE",
            Kind::Decide => "DECIDE",
        }
    }
}
