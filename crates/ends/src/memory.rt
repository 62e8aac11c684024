// The end that keeps what it takes in memory handed over by the caller.
ghost use Rattle.std.specs.Prelude.{◌≡◌, refl};
ghost use Rattle.orders.specs.declared.phase.Phase.TheVariants.{Running as Open};
ghost use Rattle.ends.specs.Ends.{memory_means};
ghost use Rattle.ends.specs.Buffers.{taken};

use crate::buffer::Buffer;
use crate::end::End;
use crate::pile::Pile;
use orders::phase::Phase;

pub type MemoryEnd = End<Buffer>;

impl End<Buffer> {
    pub fn new(memory: Vec<u8>) -> Self
        ensures { (result.holder.memory ≡ memory) × (result.holder.len ≡ 0) × (result.phase ≡ Open) }
    {
        End {
            holder: Buffer::new(memory),
            phase: Phase::Running,
        }
    }

    // The bytes that it took.
    pub fn bytes(&self) -> &[u8]
        ensures { result.now ≡ taken self.now.holder }
    {
        self.holder.bytes()
    }
}

impl Pile for End<Buffer> {
    ghost over = { λ v. memory_means v 0 Open };

    ghost buffer = { λ s. s.holder };

    fn over(memory: Vec<u8>) -> Self {
        MemoryEnd::new(memory)
    }

    fn into_buffer(self) -> Buffer {
        let End { holder, phase: _ } = self;
        holder
    }

    ghost foot = { λ s. refl };

    ghost bottom = { λ s. refl };
}
