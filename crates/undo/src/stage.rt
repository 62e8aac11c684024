// An undoing stage takes a byte and answers one byte, nothing or a refusal; it also tells whether it may stop.
ghost use Rattle.std.specs.Prelude.{◌≡◌, []};
ghost use Rattle.fault.specs.Answers.{told, answer};
ghost use Rattle.fault.specs.Kinds.{own_fault};
ghost use Rattle.undo.specs.Undoing.{Undoing, fed};

use fault::own_fault::OwnFault;

pub trait UndoStage {
    // What the stage means.
    ghost means: { Self → Undoing };

    fn take(&mut self, b: u8) -> Result<Option<u8>, OwnFault>
        ensures answered { told own_fault result ≡ (means self.old).takes [] b }
        ensures changed { means self.new ≡ fed (means self.old) b };

    fn may_stop(&self) -> Result<(), OwnFault>
        ensures { told own_fault result ≡ answer tt ((means self.now).stop []) };
}
