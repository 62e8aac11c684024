// Wire bytes, one by one and as a chunk.
ghost use Rattle.std.specs.Prelude.{◌≡◌};
ghost use Rattle.fault.specs.Answers.{told, answer, via};
ghost use Rattle.fault.specs.Kinds.{layer_fault};
ghost use Rattle.reading.specs.Machine.{step};
ghost use Rattle.reader.specs.States.{state_of};
ghost use Rattle.reader.specs.Reading.{stepped, wire_byte, byte, bytes, accepted};
ghost use Rattle.reader.specs.Readers.{reading_of};
ghost use Rattle.reader.specs.Whole.{Whole};

use crate::reader::Reader;
use fault::layer::Layer;
use fault::layer_fault::LayerFault;
use fault::rise::from_below;
use taker::paragraph_taker::ParagraphTaker;
use undo::stage::UndoStage;

impl<U: UndoStage, T: ParagraphTaker> Reader<U, T> {
    // An undone byte, by the rules of reading.
    fn read(&mut self, b: u8) -> Result<(), LayerFault>
        ensures answered { told layer_fault result ≡ answer tt (stepped (reading_of U.UndoStage.means T.ParagraphTaker.means self.old) (step (state_of self.old.line) b)).fault }
        ensures changed { reading_of U.UndoStage.means T.ParagraphTaker.means self.new ≡ (stepped (reading_of U.UndoStage.means T.ParagraphTaker.means self.old) (step (state_of self.old.line) b)).left }
        ensures kept { T.ParagraphTaker.keeps self.old.delivery.taker self.new.delivery.taker }
    {
        let (plan, line) = self.line.step(b).map_err(|cause| self.own(cause))?;
        self.delivery.hand_on(&plan)?;
        self.line = line;
        self.place = self.place.saturating_add(1);
        Ok(())
    }

    // A wire byte: what the undoing stage makes of it, if anything, is read.
    fn take(&mut self, b: u8) -> Result<(), LayerFault>
        ensures answered { told layer_fault result ≡ answer tt (wire_byte (reading_of U.UndoStage.means T.ParagraphTaker.means self.old) b).fault }
        ensures changed { reading_of U.UndoStage.means T.ParagraphTaker.means self.new ≡ (wire_byte (reading_of U.UndoStage.means T.ParagraphTaker.means self.old) b).left }
        ensures kept { T.ParagraphTaker.keeps self.old.delivery.taker self.new.delivery.taker }
    {
        match from_below(self.undo.take(b))? {
            Some(c) => self.read(c),
            None => Ok(()),
        }
    }

    // A wire byte, in any phase: the first refusal shuts the reader.
    fn byte(&mut self, b: u8) -> Result<(), LayerFault>
        ensures answered { told layer_fault result ≡ answer tt (byte (reading_of U.UndoStage.means T.ParagraphTaker.means self.old) b).fault }
        ensures changed { reading_of U.UndoStage.means T.ParagraphTaker.means self.new ≡ (byte (reading_of U.UndoStage.means T.ParagraphTaker.means self.old) b).left }
        ensures kept { T.ParagraphTaker.keeps self.old.delivery.taker self.new.delivery.taker }
    {
        self.phase.going(Layer::Reader, self.place)?;
        let answer = self.take(b);
        self.phase.settle(answer)
    }

    // How many bytes were accepted, and the fault that stopped it. What the taker was handed, and the fault, are those that
    // the chunk comes to as a whole. The loop is the reader's own, since a reader is neither a sink nor a taker.
    pub fn feed(&mut self, chunk: &[u8]) -> (usize, Option<LayerFault>)
        ensures taken { result.0 ≡ accepted (reading_of U.UndoStage.means T.ParagraphTaker.means self.old) chunk.now }
        ensures fault { via layer_fault result.1 ≡ (bytes (reading_of U.UndoStage.means T.ParagraphTaker.means self.old) chunk.now).fault }
        ensures changed { reading_of U.UndoStage.means T.ParagraphTaker.means self.new ≡ (bytes (reading_of U.UndoStage.means T.ParagraphTaker.means self.old) chunk.now).left }
        ensures whole { Whole (reading_of U.UndoStage.means T.ParagraphTaker.means self.old) chunk.now }
        ensures kept { T.ParagraphTaker.keeps self.old.delivery.taker self.new.delivery.taker }
    {
        for (i, b) in chunk.iter().enumerate() {
            if let Err(f) = self.byte(*b) {
                return (i, Some(f));
            }
        }
        (chunk.len(), None)
    }
}
