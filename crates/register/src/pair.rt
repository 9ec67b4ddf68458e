// A statement, and a process that has signed it.

#[derive(Clone, Copy, Debug, PartialEq, Eq)]
pub struct Statement {
    // Any number: a register takes every statement.
    pub kind: u8,
    pub number: u32,
    pub value: u16,
}

#[derive(Clone, Copy, Debug, PartialEq, Eq)]
pub struct Pair {
    pub process: u8,
    pub statement: Statement,
}
