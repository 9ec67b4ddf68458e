// The registers that OPEN may name.
ghost use Rattle.std.specs.Prelude.{◌≡◌};
ghost use Rattle.exam.specs.Registers.{register_named};

use refusals::Refusal;

#[derive(Clone, Copy, Debug, PartialEq, Eq)]
pub(super) enum RegisterKind {
    Tally,
    Roll,
}

impl TryFrom<u8> for RegisterKind {
    type Error = Refusal;

    ghost try_from_gives = { λ number kind. kind ≡ register_named number };

    fn try_from(number: u8) -> Result<RegisterKind, Refusal> {
        match number {
            1 => Ok(RegisterKind::Tally),
            2 => Ok(RegisterKind::Roll),
            _ => Err(Refusal::FieldOutOfRange),
        }
    }
}
