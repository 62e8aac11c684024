// A fault: the cause, the layer where it arose, how many layers passed it up, and the place.
ghost use Rattle.std.specs.Prelude.{◌≡◌, ℕ};
ghost use Rattle.fault.specs.Faults.{own as arises, raise};

use crate::cause::Cause;
use crate::layer::Layer;

#[derive(Clone, Copy, Debug, PartialEq, Eq)]
pub struct Fault {
    pub cause: Cause,
    pub layer: Layer,
    // how many layers passed it up, capped
    pub level: u32,
    // how many bytes the layer had accepted, capped
    pub place: u32,
}

impl Fault {
    // A fault where it arises.
    pub fn own(cause: Cause, layer: Layer, place: u32) -> Fault
        ensures { result ≡ arises cause layer place }
    {
        Fault {
            cause,
            layer,
            level: 0,
            place,
        }
    }

    // The fault as the layer above passes it up.
    pub fn raised(self) -> Fault
        ensures { result ≡ raise self }
    {
        Fault {
            level: self.level.saturating_add(1),
            ..self
        }
    }
}
