// A vouch's number.
ghost use Rattle.std.specs.Prelude.{◌≡◌};
ghost use Rattle.wire.specs.Kinds.{vouch_number, vouch_of, in_field};

use crate::vouch::Vouch;
use refusals::Refusal;

impl From<Vouch> for u8 {
    ghost from_gives = { λ vouch number. number ≡ vouch_number vouch };

    fn from(vouch: Vouch) -> u8 {
        vouch as u8
    }
}

impl TryFrom<u8> for Vouch {
    type Error = Refusal;

    ghost try_from_gives = { λ number vouch. vouch ≡ in_field (vouch_of number) };

    fn try_from(number: u8) -> Result<Vouch, Refusal> {
        match number {
            0 => Ok(Vouch::Nothing),
            1 => Ok(Vouch::Disclosed),
            2 => Ok(Vouch::Any),
            _ => Err(Refusal::FieldOutOfRange),
        }
    }
}
