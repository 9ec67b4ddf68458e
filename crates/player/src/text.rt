// Outcomes as text.
ghost use Rattle.std.specs.Prelude.{◌≡◌, Some};
ghost use Rattle.player.specs.Outcomes.{outcome_text, outcome_of};

use crate::outcome::Outcome;
use protocol::Answer;
use refusals::Refusal;
use std::fmt;

// The outcome of a move on a board.
impl From<Result<Answer, Refusal>> for Outcome {
    ghost from_gives = { λ answer outcome. outcome ≡ outcome_of answer };

    fn from(answer: Result<Answer, Refusal>) -> Outcome {
        match answer {
            Ok(told) => Outcome::Answered(told),
            Err(cause) => Outcome::Refused(cause),
        }
    }
}

impl fmt::Display for Outcome {
    ghost output = { λ outcome. Some (outcome_text outcome) };

    fn fmt<W: fmt::Write>(&self, f: &mut fmt::Formatter<W>) -> fmt::Result {
        match self {
            Outcome::Opened(n) => write!(f, "opened {n}"),
            Outcome::Answered(Answer::Moved(appended)) => write!(f, "moved {appended}"),
            Outcome::Answered(Answer::Dropped) => write!(f, "dropped 0"),
            Outcome::Answered(Answer::Heeded) => write!(f, "heeded 0"),
            Outcome::Answered(Answer::Acted(appended)) => write!(f, "acted {appended}"),
            Outcome::Refused(cause) => write!(f, "refused {cause}"),
        }
    }
}
