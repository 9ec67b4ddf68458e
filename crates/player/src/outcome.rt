// What a move of a schedule comes to.
use protocol::Answer;
use refusals::Refusal;

#[derive(Clone, Copy, Debug, PartialEq, Eq)]
pub enum Outcome {
    // A board for so many processes.
    Opened(u8),
    Answered(Answer),
    Refused(Refusal),
}
