// A pile under the dot stage is a pile.
ghost use Rattle.std.specs.Prelude.{◌≡◌};
ghost use Rattle.orders.specs.declared.phase.Phase.TheVariants.{Running as Open};
ghost use Rattle.layer.specs.Layer.{layer_means};
ghost use Rattle.dot.specs.declared.line.LineState.TheVariants.{Start as at_first};
ghost use Rattle.dot.specs.Dot.{dot as dot_machine};

use crate::dot::Dot;
use ends::buffer::Buffer;
use ends::pile::Pile;

impl<S: Pile> Pile for Dot<S> {
    ghost over = { λ v. layer_means dot_machine (S.Pile.over v) at_first Open 0 };

    ghost buffer = { λ s. S.Pile.buffer s.below };

    fn over(memory: Vec<u8>) -> Self {
        Dot::new(S::over(memory))
    }

    fn into_buffer(self) -> Buffer {
        self.into_below().into_buffer()
    }

    ghost foot = { λ s. S.Pile.foot s.below };

    ghost bottom = { λ s. S.Pile.bottom s.below };
}
