// The promise over whole runs.
ghost use Rattle.composer.specs.Composers.{means_of};
ghost use Rattle.reader.specs.Readers.{reading_of};
ghost use Rattle.conversation.specs.Promise.{Promise, ReadsBack};

use composer::composer::Composer;
use reader::reader::Reader;
use sink::byte_sink::ByteSink;
use taker::paragraph_taker::ParagraphTaker;
use undo::stage::UndoStage;

// Of two composers and two readers as they are now, whatever steps led to them: the same orders send the same bytes and
// get the same answers, wherever the text was cut, and these are what the rules state; different paragraphs never share
// their bytes; and what the first composer sent, the readers read back as it was written.
pub fn promise<X, Y, U, T, V, W>(
    x: &Composer<X>,
    y: &Composer<Y>,
    one: &Reader<U, T>,
    other: &Reader<V, W>,
)
where
    X: ByteSink,
    Y: ByteSink,
    U: UndoStage,
    T: ParagraphTaker,
    V: UndoStage,
    W: ParagraphTaker,
    ensures { Promise X.ByteSink.means Y.ByteSink.means (means_of X.ByteSink.means x.now) (means_of Y.ByteSink.means y.now) (λ undo bs ps. ReadsBack U.UndoStage.means T.ParagraphTaker.means T.ParagraphTaker.lawful undo bs ps (reading_of U.UndoStage.means T.ParagraphTaker.means one.now)) (λ undo bs ps. ReadsBack V.UndoStage.means W.ParagraphTaker.means W.ParagraphTaker.lawful undo bs ps (reading_of V.UndoStage.means W.ParagraphTaker.means other.now)) }
{
    let _ = x;
    let _ = y;
    let _ = one;
    let _ = other;
}
