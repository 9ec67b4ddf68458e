// The moves that a schedule orders, each with the numbers that its field holds, unjudged.

#[derive(Clone, Copy, Debug, PartialEq, Eq)]
pub struct Opening<'a> {
    // 1 for the tally and 2 for the roll; any other number is refused when the board opens, and not here.
    pub register: u8,
    pub f: u8,
    // The faulty processes, as bits: this crate knows no committee, and so no set of its members.
    pub faulty: u32,
    // The small delta: how long a message takes at most, once the network has settled.
    pub delay: u32,
    // The capital delta: how long correct processes are to be in a view together. It stands behind the small one.
    pub overlap: u32,
    // The list of processes in their order, where it stands in the schedule.
    pub rota: Option<&'a [u8]>,
}

// A record that a faulty process puts on the wire.
#[derive(Clone, Copy, Debug, PartialEq, Eq)]
pub struct Injection {
    pub sender: u8,
    // Kind and vouch are numbers, as the schedule holds them: those that name none are refused when the record is made.
    pub kind: u8,
    // The receivers, as bits likewise.
    pub to: u32,
    pub number: u32,
    pub value: u16,
    pub back: u32,
    pub vouch: u8,
}

#[derive(Clone, Copy, Debug, PartialEq, Eq)]
pub enum Move<'a> {
    Open(Opening<'a>),
    Propose { process: u8, value: u16 },
    Tick { process: u8, ticks: u32 },
    // The timer is 1 for the view timer and 2 for the spread timer; any other number is refused when the move is made.
    Expire { process: u8, timer: u8 },
    Deliver { record: u16, process: u8 },
    Inject(Injection),
}

#[derive(Clone, Copy, Debug, PartialEq, Eq)]
pub struct Placed<'a> {
    // The place of the tag of the move's first field.
    pub byte: usize,
    pub order: Move<'a>,
}
