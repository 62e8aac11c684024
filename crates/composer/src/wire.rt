// Bytes sent down.
ghost use Rattle.std.specs.Prelude.{◌≡◌, true, [], ◌∷◌, replicate};
ghost use Rattle.fault.specs.Answers.{told, answer, raised};
ghost use Rattle.fault.specs.Kinds.{layer_fault};
ghost use Rattle.orders.specs.Steps.{shown};
ghost use Rattle.orders.specs.Lists.{sent, sent_fault};
ghost use Rattle.orders.specs.Behind.{Behind};
ghost use Rattle.sink.specs.Sink.{down};
ghost use Rattle.composer.specs.Sending.{WentDown};

use fault::layer_fault::LayerFault;
use fault::rise::from_below;
use sink::byte_sink::ByteSink;
use sink::feed::feed;

fn send_byte<S: ByteSink>(below: &mut S, b: u8) -> Result<(), LayerFault>
    ensures { WentDown S.ByteSink.means S.ByteSink.memory below.old below.new (b ∷ []) (told layer_fault result) }
{
    from_below(below.put(b))?;
    Ok(())
}

pub(crate) fn send_bytes<S: ByteSink>(below: &mut S, bytes: &[u8]) -> Result<(), LayerFault>
    ensures { WentDown S.ByteSink.means S.ByteSink.memory below.old below.new bytes.now (told layer_fault result) }
{
    let (_, fault) = feed(below, bytes);
    from_below(fault.map_or(Ok(()), Err))?;
    Ok(())
}

// The same byte, so many times.
pub(crate) fn send_repeated<S: ByteSink>(
    below: &mut S,
    b: u8,
    times: usize,
) -> Result<(), LayerFault>
    ensures { WentDown S.ByteSink.means S.ByteSink.memory below.old below.new (replicate times b) (told layer_fault result) }
{
    // a count, and no index
    for _ in 0..times {
        send_byte(below, b)?;
    }
    Ok(())
}

// The close, and the foot's length.
pub(crate) fn send_close<S: ByteSink>(below: &mut S) -> Result<u32, LayerFault>
    ensures answered { told layer_fault result ≡ answer (shown (S.ByteSink.means below.new).foot) (raised (sent_fault (S.ByteSink.means below.old) (down [] true))) }
    ensures changed { S.ByteSink.means below.new ≡ sent (S.ByteSink.means below.old) (down [] true) }
    ensures behind { Behind (S.ByteSink.means below.new).foot (S.ByteSink.memory below.old) (S.ByteSink.memory below.new) }
{
    let n = from_below(below.close())?;
    Ok(n)
}
