// The fault of a layer that has others below it, a stage, the composer or the reader: its own, or one from below, a level higher.
ghost use Rattle.std.specs.Prelude.{◌≡◌};
ghost use Rattle.fault.specs.Faults.{raise};
ghost use Rattle.fault.specs.Kinds.{layer_fault};

use crate::cause::Cause;
use crate::fault::Fault;
use crate::layer::Layer;
use crate::refusal::{Arises, Refusal};
use crate::rise::Passed;

#[derive(Clone, Copy, Debug, PartialEq, Eq)]
pub struct LayerFault(Fault);

impl Arises for LayerFault {
    fn own(cause: Cause, layer: Layer, place: u32) -> LayerFault {
        LayerFault(Fault::own(cause, layer, place))
    }
}

impl Refusal for LayerFault {
    ghost means = { layer_fault };

    fn fault(&self) -> Fault {
        self.0
    }
}

impl<F: Refusal + Drop> From<Passed<F>> for LayerFault {
    ghost from_gives = { λ p r. layer_fault r ≡ raise (F.Refusal.means p.0) };

    fn from(passed: Passed<F>) -> LayerFault {
        let Passed(f) = passed;
        LayerFault(f.fault().raised())
    }
}
