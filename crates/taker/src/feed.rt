// A chunk handed to a taker byte after byte, to the first refusal.
ghost use Rattle.std.specs.Prelude.{◌≡◌, ℕ, false};
ghost use Rattle.fault.specs.Answers.{via};
ghost use Rattle.orders.specs.Lists.{sent, sent_fault, count, ran, reach};
ghost use Rattle.taker.specs.Paragraph.{text_orders};
ghost use Rattle.taker.specs.Law.{LawfulThrough};

use crate::paragraph_taker::ParagraphTaker;

// How many bytes were accepted, and the fault that stopped it. The foot and the fault are those that the chunk
// comes to as a whole. The loop stands for sinks and for takers: one over a closure would owe for each, in more lines, that
// its calls in turn come to that.
pub fn feed<T: ParagraphTaker>(taker: &mut T, chunk: &[u8]) -> (usize, Option<T::TakerFault>)
    ensures taken { result.0 ≡ count (T.ParagraphTaker.means taker.old) (text_orders chunk.now) }
    ensures fault { via T.TakerFault.Refusal.means result.1 ≡ sent_fault (T.ParagraphTaker.means taker.old) (text_orders chunk.now) }
    ensures changed { T.ParagraphTaker.means taker.new ≡ sent (T.ParagraphTaker.means taker.old) (text_orders chunk.now) }
    ensures whole { ran (T.ParagraphTaker.means taker.old) (text_orders chunk.now) ≡ reach (T.ParagraphTaker.means taker.old) (text_orders chunk.now) false }
    ensures lawful { LawfulThrough (T.ParagraphTaker.means taker.old) chunk.now result.0 }
    ensures kept { T.ParagraphTaker.keeps taker.old taker.new }
{
    for (i, b) in chunk.iter().enumerate() {
        if let Err(f) = taker.put(*b) {
            return (i, Some(f));
        }
    }
    (chunk.len(), None)
}
