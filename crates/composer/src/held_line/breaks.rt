// Where a held line is broken.
ghost use Rattle.std.specs.Prelude.{◌≡◌, ℕ, ◌+◌, length, slice_index};
ghost use Rattle.folding.specs.Held.{held_with, is_dashes};
ghost use Rattle.folding.specs.Incremental.{break_among, first_among, held_join, held_piece};
ghost use Rattle.composer.specs.State.{held_of};
ghost use Rattle.composer.specs.Taking.{held_len};

use crate::held_line::HeldLine;

impl HeldLine {
    // How many bytes are held, with the spaces.
    pub(crate) fn len(&self) -> usize
        ensures { result ≡ held_len self.now }
    {
        self.line.len() + self.spaces
    }

    // Whether the line is 2D 2D.
    pub(crate) fn is_dashes(&self) -> bool
        ensures { result ≡ is_dashes (held_of self.now) }
    {
        self.line.as_slice() == [0x2D, 0x2D].as_slice()
    }

    // The first byte of what is held, with a byte behind it.
    fn first(&self, b: u8) -> u8
        ensures { result ≡ slice_index (held_with (held_of self.now) b) 0 }
    {
        match self.line.first() {
            Some(first) => *first,
            None => { if self.spaces > 0 { 0x20 } else { b } }
        }
    }

    // Whether a break may stand behind so many bytes, among the spaces behind the line; never so that the piece is 2D 2D 20.
    fn breaks_among(&self, place: usize) -> bool
        ensures { result ≡ break_among (length self.now.line.items) (is_dashes (held_of self.now)) place }
    {
        self.line.len() < place && !(self.is_dashes() && place == 3)
    }

    // The first break among the spaces behind the line.
    fn first_among(&self) -> Option<usize>
        ensures { result ≡ first_among (length self.now.line.items) self.now.spaces (is_dashes (held_of self.now)) }
    {
        let len = self.line.len();
        if self.is_dashes() {
            if self.spaces > 1 { Some(len + 2) } else { None }
        } else if self.spaces > 0 {
            Some(len + 1)
        } else {
            None
        }
    }

    // The last break once the spaces and a byte have joined the line.
    pub(crate) fn break_behind(&self) -> Option<usize>
        ensures { (b : ℕ) → result ≡ (held_join (held_of self.now) b).last_break }
    {
        let end = self.len();
        if self.breaks_among(end) {
            Some(end)
        } else {
            self.last_break
        }
    }

    // The length of the piece that a byte other than a space sends, if it sends one: none if all of it fits, else to the furthest
    // place among the spaces that fits, to the last break, or to the first place among the spaces.
    pub(crate) fn piece(&self, b: u8) -> Option<usize>
        ensures { result ≡ held_piece self.now.margins.depth self.now.margins.width (held_of self.now) b }
    {
        let lead = self.margins.lead(self.first(b));
        let width = self.margins.width;
        if lead + (self.len() + 1) <= width {
            return None;
        }
        let furthest = self.len().min(width.saturating_sub(lead));
        if self.breaks_among(furthest) {
            return Some(furthest);
        }
        self.last_break.or(self.first_among())
    }
}
