// A byte sink takes two orders: put a byte, and close.
ghost use Rattle.std.specs.Prelude.{◌≡◌, ℕ, List};
ghost use Rattle.fault.specs.Answers.{told, answer};
ghost use Rattle.orders.specs.Steps.{after, verdict, answered, shown};
ghost use Rattle.orders.specs.Behind.{Behind};
ghost use Rattle.sink.specs.Sink.{Sink, put as putting, close as closing};
ghost use Rattle.sink.specs.Law.{Lawful};

use fault::refusal::Refusal;
use undo::stage::UndoStage;

pub trait ByteSink {
    type SinkFault: Refusal + Copy;

    // The undoing of the pile that stands here, the lowest stage's undoing first.
    type Undo: UndoStage + Drop;

    // What the sink means.
    ghost means: { Self → Sink };

    // The law of sinks, which each implementation owes.
    ghost lawful: { (s : Self) → Lawful (means s) };

    // The memory at the bottom.
    ghost memory: { Self → List ℕ };

    fn put(&mut self, b: u8) -> Result<(), Self::SinkFault>
        ensures answered { told Self.SinkFault.Refusal.means result ≡ answer tt (verdict (means self.old) (putting b)) }
        ensures changed { means self.new ≡ after (means self.old) (putting b) }
        ensures behind { Behind (means self.new).foot (memory self.old) (memory self.new) };

    fn close(&mut self) -> Result<u32, Self::SinkFault>
        ensures answered { told Self.SinkFault.Refusal.means result ≡ answered (means self.old) closing }
        ensures changed { means self.new ≡ after (means self.old) closing }
        ensures behind { Behind (means self.new).foot (memory self.old) (memory self.new) };

    // The foot's length.
    fn foot_len(&self) -> u32
        ensures { result ≡ shown (means self.now).foot };

    fn is_fresh(&self) -> bool
        ensures { result ≡ (means self.now).fresh };

    // A fresh undoing pile for what goes down here.
    fn undoing(&self) -> Self::Undo
        ensures { Self.Undo.UndoStage.means result ≡ (means self.now).fixed.also };
}
