// A chunk handed to a sink byte after byte, to the first refusal.
ghost use Rattle.std.specs.Prelude.{◌≡◌, ℕ, false};
ghost use Rattle.fault.specs.Answers.{via};
ghost use Rattle.orders.specs.Lists.{sent, sent_fault, count, ran, reach};
ghost use Rattle.orders.specs.Behind.{Behind};
ghost use Rattle.sink.specs.Sink.{down};

use crate::byte_sink::ByteSink;

// How many bytes were accepted, and the fault that stopped it. The foot and the fault are those that the chunk
// comes to as a whole. The loop stands for sinks and for takers: one over a closure would owe for each, in more lines, that
// its calls in turn come to that.
pub fn feed<S: ByteSink>(sink: &mut S, chunk: &[u8]) -> (usize, Option<S::SinkFault>)
    ensures taken { result.0 ≡ count (S.ByteSink.means sink.old) (down chunk.now false) }
    ensures fault { via S.SinkFault.Refusal.means result.1 ≡ sent_fault (S.ByteSink.means sink.old) (down chunk.now false) }
    ensures changed { S.ByteSink.means sink.new ≡ sent (S.ByteSink.means sink.old) (down chunk.now false) }
    ensures whole { ran (S.ByteSink.means sink.old) (down chunk.now false) ≡ reach (S.ByteSink.means sink.old) (down chunk.now false) false }
    ensures behind { Behind (S.ByteSink.means sink.new).foot (S.ByteSink.memory sink.old) (S.ByteSink.memory sink.new) }
{
    for (i, b) in chunk.iter().enumerate() {
        if let Err(f) = sink.put(*b) {
            return (i, Some(f));
        }
    }
    (chunk.len(), None)
}
