// A board: its setting and processes, how much of the wire is used, and who leads.
use crate::process::Process;
use committee::{Committee, Rota};

// What stays from the opening of a board on.
#[derive(Clone, Copy, Debug, PartialEq, Eq)]
pub struct Setting {
    pub committee: Committee,
    // δ: the spread timer measures it.
    pub delay: u32,
    // Δ: the view timer measures it and two delays.
    pub overlap: u32,
}

// All of a board but its rota.
#[derive(Clone, Copy)]
pub struct Table {
    pub setting: Setting,
    // Those at n and above are not looked at. An array, since opening a board takes no memory.
    pub processes: [Process; 31],
    // How many records of the wire are used: the wire is lent for each call, and longer than what was sent.
    pub used: u16,
}

#[derive(Drop)]
pub struct Board<R: Rota> {
    pub table: Table,
    pub rota: R,
}
