// A reference text that bytes are held to.
ghost use Rattle.std.specs.Prelude.{◌≡◌, ℕ, ◌≤◌, [], length, take};
ghost use Rattle.ends.specs.Ends.{matches as permits};
ghost use Rattle.ends.specs.Lawful.{matches_hard, taken_matches};

use crate::holder::Holder;
use fault::cause::Cause;

#[derive(Drop)]
pub struct Reference<'a> {
    text: &'a [u8],
    // how many bytes of the text came, from its front
    len: usize,
    ghost within: { len ≤ length text.now },
}

impl<'a> Reference<'a> {
    pub fn new(text: &'a [u8]) -> Self
        ensures { (result.text.now ≡ text.now) × (result.len ≡ 0) }
    {
        Reference { text, len: 0 }
    }
}

// It permits its beginnings, and may be closed on the whole. It stores nothing.
impl<'a> Holder for Reference<'a> {
    ghost permit = { λ s. permits s.text.now };

    ghost foot = { λ s. take s.len s.text.now };

    ghost memory = { λ _. [] };

    ghost hard = { λ s. matches_hard s.text.now };

    ghost permitted = { λ s. taken_matches s.text.now s.len };

    fn came(&self) -> &[u8] {
        &self.text[..self.len]
    }

    fn push(&mut self, b: u8) -> Result<(), Cause> {
        if self.text.get(self.len) != Some(&b) {
            return Err(Cause::Differs);
        }
        self.len += 1;
        Ok(())
    }

    fn may_close(&self) -> Result<(), Cause> {
        if self.len < self.text.len() {
            return Err(Cause::Incomplete);
        }
        Ok(())
    }
}
