// What every kind of fault tells: the fault that it means.
ghost use Rattle.std.specs.Prelude.{◌≡◌};
ghost use Rattle.fault.specs.declared.fault.Fault.{Fault};
ghost use Rattle.fault.specs.Faults.{own};

use crate::cause::Cause;
use crate::fault::Fault;
use crate::layer::Layer;

pub trait Refusal {
    ghost means: { Self → Fault };

    fn fault(&self) -> Fault
        ensures { result ≡ means self.now };
}

// A kind of fault that arises in a layer itself.
pub trait Arises: Refusal {
    fn own(cause: Cause, layer: Layer, place: u32) -> Self
        ensures { Self.Refusal.means result ≡ own cause layer place };
}
