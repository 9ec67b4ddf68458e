// Whether a record is in range: what may stand in each field of each kind.
ghost use Rattle.std.specs.Prelude.{◌≡◌};
ghost use Rattle.wire.specs.Ranges.{number_fits, value_fits, back_fits, vouch_fits, sets_fit, in_range};

use crate::kind::Kind;
use crate::record::Record;
use crate::vouch::Vouch;
use committee::Committee;
use committee::views::{LAST_EPOCH, LAST_VIEW};

// No epoch follows the last that can be entered, so it cannot be completed.
const LAST_COMPLETED: u32 = 65_534;

impl Record {
    pub fn in_range(&self, committee: &Committee) -> bool
        ensures { result ≡ in_range committee.now.n self.now }
    {
        self.sets_fit(committee)
            && self.number_fits()
            && self.value_fits()
            && self.back_fits()
            && self.vouch_fits()
    }

    // Got and heeded need only name processes of the committee.
    fn sets_fit(&self, committee: &Committee) -> bool
        ensures { result ≡ sets_fit committee.now.n self.now }
    {
        let limit = 1u32 << committee.n;
        self.sender < committee.n
            && self.to.bits > 0
            && self.to.bits < limit
            && self.got.bits < limit
            && self.heeded.bits < limit
    }

    fn number_fits(&self) -> bool
        ensures { result ≡ number_fits self.now }
    {
        match self.kind {
            Kind::Disclose | Kind::AllowAny | Kind::Certificate => self.number == 0,
            Kind::EpochCompleted => (1..=LAST_COMPLETED).contains(&self.number),
            Kind::EnterEpoch => (1..=LAST_EPOCH).contains(&self.number),
            _ => (1..=LAST_VIEW).contains(&self.number),
        }
    }

    fn value_fits(&self) -> bool
        ensures { result ≡ value_fits self.now }
    {
        let has_value = match self.kind {
            Kind::AllowAny | Kind::EpochCompleted | Kind::EnterEpoch => false,
            Kind::Certificate => self.vouch == Vouch::Disclosed,
            Kind::ViewChange => self.back > 0,
            _ => true,
        };
        has_value == (self.value > 0)
    }

    fn back_fits(&self) -> bool
        ensures { result ≡ back_fits self.now }
    {
        match self.kind {
            Kind::ViewChange | Kind::Prepare => self.back <= LAST_VIEW,
            _ => self.back == 0,
        }
    }

    fn vouch_fits(&self) -> bool
        ensures { result ≡ vouch_fits self.now }
    {
        let has_vouch = match self.kind {
            Kind::Certificate => true,
            Kind::Prepare => self.back == 0,
            _ => false,
        };
        has_vouch == (self.vouch != Vouch::Nothing)
    }
}
