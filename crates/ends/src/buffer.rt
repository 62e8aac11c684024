// Memory handed over by the caller, taken from the front.
ghost use Rattle.std.specs.Prelude.{◌≡◌, ℕ, ◌≤◌, vec_len};
ghost use Rattle.ends.specs.Ends.{held, fits};
ghost use Rattle.ends.specs.Lawful.{fits_hard, held_fits};

use crate::holder::Holder;
use fault::cause::Cause;

// The memory is the caller's and is given back, with what lies behind the bytes that were taken as it was.
#[derive(Drop)]
pub struct Buffer {
    memory: Vec<u8>,
    // how many bytes were taken: they stand in front
    len: usize,
    ghost within: { len ≤ vec_len memory },
}

impl Buffer {
    pub fn new(memory: Vec<u8>) -> Self
        ensures { (result.memory ≡ memory) × (result.len ≡ 0) }
    {
        Buffer { memory, len: 0 }
    }

    // The bytes that were taken.
    pub fn bytes(&self) -> &[u8]
        ensures { result.now ≡ held self.now.memory self.now.len }
    {
        &self.memory[..self.len]
    }

    // All of the memory.
    pub fn memory(&self) -> &[u8]
        ensures { result.now ≡ self.now.memory.items }
    {
        self.memory.as_slice()
    }

    // The memory, back, and how many bytes of it were taken.
    pub fn into_parts(self) -> (Vec<u8>, usize)
        ensures memory { result.0 ≡ self.memory }
        ensures len { result.1 ≡ self.len }
        ensures within { result.1 ≤ vec_len result.0 }
    {
        let Buffer { memory, len } = self;
        (memory, len)
    }
}

// It permits every list that fits, and may always be closed.
impl Holder for Buffer {
    ghost permit = { λ s. fits (vec_len s.memory) };

    ghost foot = { λ s. held s.memory s.len };

    ghost memory = { λ s. s.memory.items };

    ghost hard = { λ s. fits_hard (vec_len s.memory) };

    ghost permitted = { λ s. held_fits s.memory s.len };

    fn came(&self) -> &[u8] {
        self.bytes()
    }

    fn push(&mut self, b: u8) -> Result<(), Cause> {
        // a copy, so that the length is not read anew behind each byte that is written
        let len = self.len;
        if len == self.memory.len() {
            return Err(Cause::Full);
        }
        self.memory[len] = b;
        self.len = len + 1;
        Ok(())
    }

    fn may_close(&self) -> Result<(), Cause> {
        Ok(())
    }
}
