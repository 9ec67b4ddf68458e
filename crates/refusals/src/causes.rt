// The causes in the order in which they are met: the first that holds answers.

#[derive(Clone, Copy, Debug, PartialEq, Eq)]
pub enum Refusal {
    NotACommittee = 1,
    DurationOutOfRange = 2,
    RegisterNotEmpty = 3,
    RotaUnfit = 4,
    BoardOutOfRange = 5,
    NoSuchProcess = 6,
    WrongSide = 7,
    FieldOutOfRange = 8,
    NoSuchRecord = 9,
    Untimely = 10,
    ViewAhead = 11,
    WireFull = 12,
    RegisterFull = 13,
    ClockAtEnd = 14,
    LastEpoch = 15,
    CutShort = 16,
    UnknownTag = 17,
    WrongLength = 18,
    OutOfPlace = 19,
}
