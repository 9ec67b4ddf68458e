// Epoch and place of a view, and the view of an epoch and a place.
ghost use Rattle.std.specs.Prelude.{◌≡◌, true, false, IfOk, MatchResult};
ghost use Rattle.refusals.specs.declared.causes.Refusal.TheVariants.{FieldOutOfRange};
ghost use Rattle.committee.specs.Views.{is_view, epoch_of, place_of, view_of, Placed};

use crate::membership::Committee;
use refusals::Refusal;

// The greatest view that a record or a call can name: the last place of epoch 65,535 where f is 10.
pub const LAST_VIEW: u32 = 720_885;

// The last epoch that can be entered.
pub const LAST_EPOCH: u32 = 65_535;

impl Committee {
    // The epoch of a view and its place there, both counted from 1: a pair, which callers take apart, is the answer that is asked for.
    pub fn epoch_place(&self, view: u32) -> Result<(u32, u8), Refusal>
        ensures value { MatchResult result
            (λ x. (is_view view ≡ true) × (x.0 ≡ epoch_of self.now.f view) × (x.1 ≡ place_of self.now.f view))
            (λ e. (is_view view ≡ false) × (e ≡ FieldOutOfRange)) }
        ensures undone { IfOk result (λ x. view_of self.now.f x.0 x.1 ≡ view) }
    {
        if !(1..=LAST_VIEW).contains(&view) {
            return Err(Refusal::FieldOutOfRange);
        }
        let before = view - 1;
        // A committee's f is 10 at most, so the cast below changes no number.
        let per_epoch = u32::from(self.f) + 1;
        Ok((before / per_epoch + 1, (before % per_epoch + 1) as u8))
    }

    // The view at a place of an epoch.
    #[tactic(auto, using(crate::proofs::Places::placed))]
    pub fn view_at(&self, epoch: u16, place: u8) -> u32
        ensures value { result ≡ view_of self.now.f epoch place }
        ensures undone { Placed self.now.f epoch place result }
    {
        u32::from(epoch.saturating_sub(1)) * (u32::from(self.f) + 1) + u32::from(place)
    }
}
