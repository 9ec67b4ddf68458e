// A record of the wire. A value or a back of 0 is none: a wire is handed in with any numbers, and judged as a whole.
use crate::kind::Kind;
use crate::vouch::Vouch;
use committee::ProcessSet;

#[derive(Clone, Copy, Debug, PartialEq, Eq)]
pub struct Record {
    pub sender: u8,
    pub kind: Kind,
    // An epoch in kinds 4 and 5, a view in kinds 6 to 13.
    pub number: u32,
    pub value: u16,
    // The view whose prepare votes back the value; 0 for none.
    pub back: u32,
    pub vouch: Vouch,
    pub to: ProcessSet,
    pub got: ProcessSet,
    pub heeded: ProcessSet,
}
