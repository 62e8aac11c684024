// A fault told where it arises, by an end, a store or an undoing stage: its level is 0.
ghost use Rattle.std.specs.Prelude.{◌≡◌};
ghost use Rattle.fault.specs.Kinds.{own_fault};

use crate::cause::Cause;
use crate::fault::Fault;
use crate::layer::Layer;
use crate::refusal::{Arises, Refusal};

#[derive(Clone, Copy, Debug, PartialEq, Eq)]
pub struct OwnFault {
    pub cause: Cause,
    pub layer: Layer,
    pub place: u32,
}

impl Refusal for OwnFault {
    ghost means = { own_fault };

    fn fault(&self) -> Fault {
        Fault::own(self.cause, self.layer, self.place)
    }
}

impl Arises for OwnFault {
    fn own(cause: Cause, layer: Layer, place: u32) -> OwnFault {
        OwnFault {
            cause,
            layer,
            place,
        }
    }
}
