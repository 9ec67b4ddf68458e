// What a faulty process is to send, as it is given: no field has been looked at yet.
use committee::ProcessSet;

#[derive(Clone, Copy, Debug, PartialEq, Eq)]
pub struct Draft {
    // The numbers of a kind and of a vouch, if they are such numbers: a draft may have any, and is refused for them.
    pub kind: u8,
    pub to: ProcessSet,
    pub number: u32,
    pub value: u16,
    pub back: u32,
    pub vouch: u8,
}
