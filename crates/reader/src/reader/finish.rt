// The finish of a reader.
ghost use Rattle.std.specs.Prelude.{◌≡◌};
ghost use Rattle.fault.specs.Answers.{told, answer};
ghost use Rattle.fault.specs.Kinds.{layer_fault};
ghost use Rattle.reading.specs.Machine.{finish as finish_by};
ghost use Rattle.reader.specs.States.{state_of};
ghost use Rattle.reader.specs.Reading.{line_finish, finish_tells, finish_read, finish_answered};
ghost use Rattle.reader.specs.Readers.{reading_of};

use crate::reader::Reader;
use fault::layer::Layer;
use fault::layer_fault::LayerFault;
use fault::rise::from_below;
use orders::phase::Phase;
use taker::paragraph_taker::ParagraphTaker;
use undo::stage::UndoStage;

impl<U: UndoStage, T: ParagraphTaker> Reader<U, T> {
    // The undoing stage has to stop first; then an open paragraph is ended, and the taker finished.
    fn last_orders(&mut self) -> Result<u32, LayerFault>
        ensures answered { told layer_fault result ≡ answer (finish_tells (reading_of U.UndoStage.means T.ParagraphTaker.means self.old)) (line_finish (finish_by (state_of self.old.line)) (reading_of U.UndoStage.means T.ParagraphTaker.means self.old)).fault }
        ensures changed { reading_of U.UndoStage.means T.ParagraphTaker.means self.new ≡ (line_finish (finish_by (state_of self.old.line)) (reading_of U.UndoStage.means T.ParagraphTaker.means self.old)).left }
        ensures kept { T.ParagraphTaker.keeps self.old.delivery.taker self.new.delivery.taker }
    {
        let open = self.line.finish().map_err(|cause| self.own(cause))?;
        from_below(self.undo.may_stop())?;
        self.delivery.end_if(open)?;
        self.delivery.finish()
    }

    // Refused inside a line. Answers what the finish of the taker does.
    pub fn finish(&mut self) -> Result<u32, LayerFault>
        ensures answered { told layer_fault result ≡ finish_answered (reading_of U.UndoStage.means T.ParagraphTaker.means self.old) }
        ensures changed { reading_of U.UndoStage.means T.ParagraphTaker.means self.new ≡ (finish_read (reading_of U.UndoStage.means T.ParagraphTaker.means self.old)).left }
        ensures kept { T.ParagraphTaker.keeps self.old.delivery.taker self.new.delivery.taker }
    {
        self.phase.going(Layer::Reader, self.place)?;
        let answer = self.last_orders();
        let n = self.phase.settle(answer)?;
        self.phase = Phase::Closed;
        Ok(n)
    }
}
