// A whole text and a close behind it.
ghost use Rattle.std.specs.Prelude.{◌≡◌, true};
ghost use Rattle.fault.specs.Answers.{told, answer};
ghost use Rattle.orders.specs.Steps.{shown};
ghost use Rattle.orders.specs.Lists.{sent, sent_fault, reach};
ghost use Rattle.orders.specs.Behind.{Behind};
ghost use Rattle.sink.specs.Sink.{down};

use sink::byte_sink::ByteSink;
use sink::feed::feed;

// The foot's length, or the first refusal. The foot and the fault are those that the text and the close
// come to as a whole.
pub fn send<S: ByteSink>(sink: &mut S, text: &[u8]) -> Result<u32, S::SinkFault>
    ensures answered { told S.SinkFault.Refusal.means result ≡ answer (shown (S.ByteSink.means sink.new).foot) (reach (S.ByteSink.means sink.old) (down text.now true) true).fault }
    ensures foot { (S.ByteSink.means sink.new).foot ≡ (reach (S.ByteSink.means sink.old) (down text.now true) true).list }
    ensures changed { S.ByteSink.means sink.new ≡ sent (S.ByteSink.means sink.old) (down text.now true) }
    ensures behind { Behind (S.ByteSink.means sink.new).foot (S.ByteSink.memory sink.old) (S.ByteSink.memory sink.new) }
{
    let (_, refused) = feed(sink, text);
    // what stopped a chunk is told beside its count; to make a Result of it for `?` is no plainer
    if let Some(f) = refused {
        return Err(f);
    }
    sink.close()
}
