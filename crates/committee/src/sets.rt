// A set of processes.
ghost use Rattle.std.specs.Prelude.{◌≡◌, ◌≤◌};
ghost use Rattle.committee.specs.Sets.{contains, with_member, size};

// Bit i stands for process i.
#[derive(Clone, Copy, Debug, Default, PartialEq, Eq)]
pub struct ProcessSet {
    pub bits: u32,
}

impl ProcessSet {
    pub fn contains(self, process: u8) -> bool
        ensures { result ≡ contains self process }
    {
        process < 32 && (self.bits >> process) % 2 == 1
    }

    // The set with one member more; a number that no bit stands for adds nothing.
    pub fn with(self, process: u8) -> ProcessSet
        ensures { result ≡ with_member self process }
    {
        if process < 32 {
            ProcessSet {
                bits: self.bits | (1 << process),
            }
        } else {
            self
        }
    }

    pub fn len(self) -> u32
        ensures value { result ≡ size self }
        ensures few { result ≤ 32 }
    {
        self.bits.count_ones()
    }
}
