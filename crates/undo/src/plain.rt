// The undoing of an end: each byte as it is.
ghost use Rattle.undo.specs.Undoing.{plain};

use crate::stage::UndoStage;
use fault::own_fault::OwnFault;

#[derive(Clone, Copy)]
pub struct Plain;

impl UndoStage for Plain {
    ghost means = { λ _. plain };

    fn take(&mut self, b: u8) -> Result<Option<u8>, OwnFault> {
        Ok(Some(b))
    }

    fn may_stop(&self) -> Result<(), OwnFault> {
        Ok(())
    }
}
