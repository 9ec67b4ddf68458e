// The two timers of a process.
ghost use Rattle.plans.specs.Timers.{Numbers};

use refusals::Refusal;

#[derive(Clone, Copy, Debug, PartialEq, Eq)]
pub(crate) enum Timer {
    View,
    Spread,
}

impl TryFrom<u8> for Timer {
    type Error = Refusal;

    ghost try_from_gives = { Numbers };

    fn try_from(number: u8) -> Result<Timer, Refusal> {
        match number {
            1 => Ok(Timer::View),
            2 => Ok(Timer::Spread),
            _ => Err(Refusal::FieldOutOfRange),
        }
    }
}
