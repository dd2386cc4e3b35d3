//! A part that is offered to the shelf.
ghost use Rattle.std.specs.Prelude.{◌≡◌, IfErr, IfOk};
ghost use Rattle.std.specs.Arc.{arc_value};
ghost use Rattle.log_core.specs.Offers.{IsSameOffer, offered};

use std::alloc::Global;
use std::sync::Arc;

/// A part that is offered to the shelf: as it is, or in its shared box.
#[derive(Drop)]
pub(crate) enum Offer<P> {
    /// The box is made last, once there is room for its pointer.
    Plain(P),
    /// The box was made before.
    Boxed(Arc<P>),
}

impl<P: Drop> Offer<P> {
    /// Returns the part in its box. Where memory runs out it comes back.
    pub(crate) fn boxed(self, alloc: Global) -> Result<Arc<P>, Offer<P>>
        ensures ok { IfOk result (λ part. arc_value part ≡ offered self) }
        ensures returned { IfErr result (IsSameOffer self) }
    {
        match self {
            Offer::Plain(part) => match Arc::new(alloc, part) {
                Ok(part) => Ok(part),
                Err(refusal) => Err(Offer::Plain(refusal.value)),
            },
            Offer::Boxed(part) => Ok(part),
        }
    }
}
