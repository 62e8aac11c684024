// What stopped the way back: the undoing stage, or the sink behind it.
ghost use Rattle.std.specs.Prelude.{◌≡◌};
ghost use Rattle.carry.specs.declared.stop.Stop.TheVariants.{Undoing as by_undoing};

use fault::own_fault::OwnFault;

#[derive(Clone, Copy, Debug, PartialEq, Eq)]
pub enum Stop<U, F> {
    Undoing(U),
    Sink(F),
}

impl<F> From<OwnFault> for Stop<OwnFault, F> {
    ghost from_gives = { λ f r. r ≡ by_undoing f };

    fn from(f: OwnFault) -> Self {
        Stop::Undoing(f)
    }
}
