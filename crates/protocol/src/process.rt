// What one process keeps, grouped by the part of SQuad that it serves. The fields are plain numbers,
// 0 for none: the rules compare them so, and a board may be handed in with one half of a mark alone or a step of 9, and is
// refused for it.
use wire::Vouch;

#[derive(Clone, Copy, Debug, Default, PartialEq, Eq)]
pub enum Phase {
    #[default]
    Idle,
    Certifying,
    Running,
}

// Certification: the value that the process proposed, and the one that it may offer as a leader.
#[derive(Clone, Copy, Debug, Default, PartialEq, Eq)]
pub struct Certification {
    pub phase: Phase,
    pub proposal: u16,
    pub offer: u16,
    // Which certificate vouches for the offer.
    pub vouch: Vouch,
    // Whether ALLOW-ANY was sent.
    pub allowed: bool,
}

// The synchronizer: where the process stands among the epochs, its clock, and when its two timers are due; 0 is unarmed.
#[derive(Clone, Copy, Debug, Default, PartialEq, Eq)]
pub struct Synchronizer {
    pub epoch: u32,
    pub place: u8,
    pub clock: u64,
    // The view timer.
    pub due: u64,
    // The spread timer.
    pub spread: u64,
}

// A value with the view in which a quorum voted for it; both 0 where there is none.
#[derive(Clone, Copy, Debug, Default, PartialEq, Eq)]
pub struct Mark {
    pub view: u32,
    pub value: u16,
}

// The view core: the view that was entered last, and how far the process is in it as a voter and as a leader.
#[derive(Clone, Copy, Debug, Default, PartialEq, Eq)]
pub struct ViewCore {
    pub view: u32,
    pub prepared: Mark,
    pub locked: Mark,
    pub step: u8,
    pub lead: u8,
    // The value that the process led last.
    pub led: u16,
    pub decided: u16,
}

#[derive(Clone, Copy, Debug, Default, PartialEq, Eq)]
pub struct Process {
    pub certification: Certification,
    pub synchronizer: Synchronizer,
    pub core: ViewCore,
}
