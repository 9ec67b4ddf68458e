// A record that can be delivered: the receiver's scene, the place of the wire, and what the rules read.
ghost use Rattle.std.specs.Prelude.{◌≡◌};
ghost use Rattle.protocol.specs.Moments.{record_at};

use admission::Scene;
use protocol::Delivery;

// Its methods stand in deliveries.rt: their contracts name a definition that names this struct, which its own file may not import.
#[derive(Clone, Copy)]
pub(crate) struct Arrival<'a> {
    pub(crate) scene: Scene<'a>,
    pub(crate) index: u16,
    pub(crate) delivery: Delivery,
    ghost seat: { delivery.seat ≡ scene.seat },
    ghost delivered: { delivery.delivered ≡ record_at scene.wire.now index },
}
