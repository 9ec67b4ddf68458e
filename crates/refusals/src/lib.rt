// Every cause for which a call or the schedule reader says no, with its number.
#![tactic(auto)]

ghost use Rattle.std.specs.Prelude.{◌≡◌, Some, decimal};
ghost use Rattle.refusals.specs.Numbers.{refusal_number};

pub mod causes;

pub use causes::Refusal;
use std::error::Error;
use std::fmt;

// The number that the board answers and prints.
impl From<Refusal> for u8 {
    ghost from_gives = { λ cause number. number ≡ refusal_number cause };

    fn from(cause: Refusal) -> u8 {
        cause as u8
    }
}

impl fmt::Display for Refusal {
    ghost output = { λ cause. Some (decimal (refusal_number cause)) };

    fn fmt<W: fmt::Write>(&self, f: &mut fmt::Formatter<W>) -> fmt::Result {
        let number = u8::from(*self);
        write!(f, "{number}")
    }
}

impl Error for Refusal {}
