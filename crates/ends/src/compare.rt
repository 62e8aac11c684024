// The end that stores nothing and holds what it takes to a reference text.
ghost use Rattle.std.specs.Prelude.{◌≡◌};
ghost use Rattle.orders.specs.declared.phase.Phase.TheVariants.{Running as Open};

use crate::end::End;
use crate::reference::Reference;
use orders::phase::Phase;

pub type CompareEnd<'a> = End<Reference<'a>>;

impl<'a> End<Reference<'a>> {
    pub fn new(reference: &'a [u8]) -> Self
        ensures { (result.holder.text.now ≡ reference.now) × (result.holder.len ≡ 0) × (result.phase ≡ Open) }
    {
        End {
            holder: Reference::new(reference),
            phase: Phase::Running,
        }
    }
}
