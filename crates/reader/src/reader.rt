// The reader: wire bytes go through an undoing stage, and come out as paragraphs at a taker.
ghost use Rattle.std.specs.Prelude.{◌≡◌};
ghost use Rattle.fault.specs.Answers.{told, arisen, via};
ghost use Rattle.fault.specs.declared.layer.Layer.TheVariants.{Reader as reader_layer};
ghost use Rattle.fault.specs.Faults.{own as arises};
ghost use Rattle.fault.specs.Kinds.{layer_fault};
ghost use Rattle.orders.specs.Phases.{phased, running, stands};
ghost use Rattle.reader.specs.Reading.{new_reading};
ghost use Rattle.reader.specs.Readers.{reading_of};

use crate::delivery::Delivery;
use crate::line::LineState;
use fault::cause::Cause;
use fault::layer::Layer;
use fault::layer_fault::LayerFault;
use fault::refusal::Arises;
use orders::phase::Phase;
use taker::paragraph_taker::ParagraphTaker;
use undo::stage::UndoStage;

mod bytes;
mod finish;

#[derive(Drop)]
pub struct Reader<U, T> {
    undo: U,
    delivery: Delivery<T>,
    line: LineState,
    phase: Phase<LayerFault>,
    // how many undone bytes were accepted
    place: u32,
}

impl<U: UndoStage, T: ParagraphTaker> Reader<U, T> {
    // Before all bytes.
    pub fn new(undo: U, taker: T) -> Self
        ensures means { reading_of U.UndoStage.means T.ParagraphTaker.means result ≡ new_reading (U.UndoStage.means undo) (T.ParagraphTaker.means taker) }
        ensures undo { result.undo ≡ undo }
        ensures taker { result.delivery.taker ≡ taker }
    {
        Reader {
            undo,
            delivery: Delivery { taker, number: 0 },
            line: LineState::begin(None),
            phase: Phase::Running,
            place: 0,
        }
    }
}

impl<U, T> Reader<U, T> {
    // The fault that shut it.
    pub fn standing(&self) -> Option<LayerFault>
        ensures { via layer_fault result ≡ stands (phased layer_fault self.now.phase) }
    {
        self.phase.standing()
    }

    pub fn taker(&self) -> &T
        ensures { result.now ≡ self.now.delivery.taker }
    {
        &self.delivery.taker
    }

    // The undoing stage and the taker, back.
    pub fn into_parts(self) -> (U, T)
        ensures { result ≡ (self.undo, self.delivery.taker) }
    {
        (self.undo, self.delivery.taker)
    }

    // A fault of its own, at the place where it stands.
    fn own(&self, cause: Cause) -> LayerFault
        ensures { layer_fault result ≡ arises cause reader_layer self.now.place }
    {
        LayerFault::own(cause, Layer::Reader, self.place)
    }
}
