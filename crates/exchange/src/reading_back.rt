// Wire bytes read in pieces, and the finish behind them.
ghost use Rattle.std.specs.Prelude.{ℕ};
ghost use Rattle.fault.specs.Answers.{told, via};
ghost use Rattle.fault.specs.Kinds.{layer_fault};
ghost use Rattle.reader.specs.Readers.{reading_of};
ghost use Rattle.exchange.specs.ReadSo.{FedSo, ReadSo};

use crate::answers::Answers;
use fault::layer_fault::LayerFault;
use reader::reader::Reader;
use taker::paragraph_taker::ParagraphTaker;
use undo::stage::UndoStage;

// In pieces of `cut` bytes, the last perhaps shorter. Answers the first refusal, past which it goes on. It stands beside the feeding of a
// taker, since a reader reads wire bytes and is no taker: what is promised of the two is not of one kind.
fn feed_wire<U: UndoStage, T: ParagraphTaker>(
    reader: &mut Reader<U, T>,
    wire: &[u8],
    cut: usize,
) -> Option<LayerFault>
    ensures fed { FedSo (reading_of U.UndoStage.means T.ParagraphTaker.means reader.old) (reading_of U.UndoStage.means T.ParagraphTaker.means reader.new) wire.now (via layer_fault result) }
    ensures kept { T.ParagraphTaker.keeps reader.old.delivery.taker reader.new.delivery.taker }
{
    let mut first = None;
    for piece in wire.chunks(cut.max(1)) {
        let (_, fault) = reader.feed(piece);
        first = first.or(fault);
    }
    first
}

pub fn read_mail<U: UndoStage, T: ParagraphTaker>(
    reader: &mut Reader<U, T>,
    wire: &[u8],
    cut: usize,
) -> Answers<LayerFault>
    ensures read { ReadSo (reading_of U.UndoStage.means T.ParagraphTaker.means reader.old) (reading_of U.UndoStage.means T.ParagraphTaker.means reader.new) wire.now (via layer_fault result.refused) (told layer_fault result.finish) }
    ensures kept { T.ParagraphTaker.keeps reader.old.delivery.taker reader.new.delivery.taker }
{
    let refused = feed_wire(reader, wire, cut);
    let finish = reader.finish();
    Answers { refused, finish }
}
