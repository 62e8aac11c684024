// A pile over the caller's memory: it is made over the memory, and gives it back.
ghost use Rattle.std.specs.Prelude.{◌≡◌, ℕ, Vec};
ghost use Rattle.std.specs.declared.alloc.Global.{Global};
ghost use Rattle.sink.specs.Sink.{Sink};
ghost use Rattle.ends.specs.declared.buffer.Buffer.{Buffer as TheBuffer};
ghost use Rattle.ends.specs.Buffers.{taken};

use crate::buffer::Buffer;
use sink::byte_sink::ByteSink;

pub trait Pile: ByteSink {
    // What a new pile over the memory means.
    ghost over: { Vec ℕ Global → Sink };

    // The memory at the bottom, and how much of it was taken.
    ghost buffer: { Self → TheBuffer };

    fn over(memory: Vec<u8>) -> Self
        ensures means { Self.means result ≡ over memory }
        ensures memory { (buffer result).memory ≡ memory };

    fn into_buffer(self) -> Buffer
        ensures { result ≡ buffer self };

    // What was taken is the foot.
    ghost foot: { (s : Self) → taken (buffer s) ≡ (Self.means s).foot };

    ghost bottom: { (s : Self) → (buffer s).memory.items ≡ Self.memory s };
}
