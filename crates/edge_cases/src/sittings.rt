// Two sittings that there are, so that what is promised of every sitting is not promised of none.
ghost use Rattle.std.specs.Prelude.{◌≡◌, ◌<◌};
ghost use Rattle.protocol.specs.Plans.{seat};
ghost use Rattle.safety.specs.Witnesses.{SomeDecide, SomeAdvance};

// A value that two correct processes decide in some sitting.
#[tactic(auto, using(crate::proofs::Witnessed::decided))]
pub fn decided_value() -> u16
    ensures { (s : SomeDecide) × (s.value ≡ result) }
{
    7
}

// An epoch above the first that a correct process reaches in some sitting.
#[tactic(auto, using(crate::proofs::Witnessed::reached))]
pub fn epoch_reached() -> u32
    ensures above { 1 < result }
    ensures reached { (s : SomeAdvance) × ((seat s.end.board.table s.one).synchronizer.epoch ≡ result) }
{
    2
}
