// What is counted among the records that a process has heeded.
use crate::kind::Kind;

#[derive(Clone, Copy, Debug, PartialEq, Eq)]
pub struct Heeded {
    // The process that heeded them.
    pub by: u8,
    pub kind: Kind,
    pub number: u32,
    // Records of this value alone, or of any.
    pub value: Option<u16>,
}
