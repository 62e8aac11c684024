// The line that is held: emptied, with a space more, without a piece, with a byte more.
ghost use Rattle.std.specs.Prelude.{◌≡◌, ◌+◌, ◌<◌, ◌≤◌, false, not, [], ◌∷◌, ◌++◌, length, replicate, is_some};
ghost use Rattle.folding.specs.Text.{space, settled_behind};
ghost use Rattle.folding.specs.Folding.{folding};
ghost use Rattle.folding.specs.WireLine.{width as line_width};
ghost use Rattle.folding.specs.Held.{Valid, nothing, held_with, full};
ghost use Rattle.folding.specs.Incremental.{held_space, held_drop, held_join};
ghost use Rattle.composer.specs.State.{held_of, held_text};
ghost use Rattle.composer.specs.Taking.{counted, held_len};

use crate::held_line::HeldLine;
use crate::held_line::margins::Margins;
use arrayvec::ArrayVec;

// With spaces and a byte behind it.
fn append(line: &mut ArrayVec<u8, 998>, spaces: usize, b: u8)
    requires { length line.old.items + spaces < 998 }
    ensures { line.new.items ≡ line.old.items ++ (replicate spaces space ++ b ∷ []) }
{
    // a count, and no index
    for _ in 0..spaces {
        line.push(0x20);
    }
    line.push(b);
}

impl HeldLine {
    // Nothing held, at depth 0.
    pub(crate) fn new(width: usize) -> HeldLine
        requires { width ≤ 998 }
        ensures held { held_of result ≡ nothing }
        ensures width { result.margins.width ≡ width }
        ensures lines { result.lines ≡ 0 }
    {
        HeldLine {
            line: ArrayVec::new(),
            last_break: None,
            spaces: 0,
            lines: 0,
            margins: Margins { depth: 0, width },
        }
    }

    // Nothing held, at the beginning of a paragraph.
    pub(crate) fn start(&mut self, depth: usize)
        requires { depth ≤ 100 }
        ensures held { held_of self.new ≡ nothing }
        ensures depth { self.new.margins.depth ≡ depth }
        ensures width { self.new.margins.width ≡ self.old.margins.width }
        ensures lines { self.new.lines ≡ 0 }
    {
        self.line.clear();
        self.last_break = None;
        self.spaces = 0;
        self.lines = 0;
        self.margins.depth = depth;
    }

    // One space more behind the line.
    pub(crate) fn count_space(&mut self)
        requires { counted self.old < 1000000 }
        ensures held { held_of self.new ≡ held_space (held_of self.old) }
        ensures margins { self.new.margins ≡ self.old.margins }
        ensures lines { self.new.lines ≡ self.old.lines }
    {
        self.spaces += 1;
    }

    fn line_width(&self) -> usize
        ensures { result ≡ line_width self.now.margins.depth (held_of self.now).line }
    {
        match self.line.first() {
            Some(first) => self.margins.lead(*first) + self.line.len(),
            None => self.margins.depth,
        }
    }

    // Nothing but a space can follow: the line has no break, and is 998 wide.
    pub(crate) fn is_full(&self) -> bool
        ensures { result ≡ full self.now.margins.depth (held_of self.now) }
    {
        self.last_break.is_none() && self.line_width() >= 998
    }

    // The text with the byte, settled, has no folding; a space is never refused.
    pub(crate) fn refuses(&self, b: u8) -> bool
        ensures { result ≡ not (is_some (folding self.now.margins.depth self.now.margins.width (settled_behind self.now.lines (held_text (held_of self.now) ++ b ∷ [])))) }
    {
        b != 0x20 && self.is_full()
    }

    pub(crate) fn lines(&self) -> u32
        ensures { result ≡ self.now.lines }
    {
        self.lines
    }

    // Without a piece, which was sent as a line.
    pub(crate) fn drop_piece(&mut self, piece: usize)
        requires some { 0 < piece }
        requires within { piece ≤ held_len self.old }
        requires valid { Valid self.old.margins.depth self.old.margins.width (held_drop piece (held_of self.old)) }
        requires room { full self.old.margins.depth (held_drop piece (held_of self.old)) ≡ false }
        ensures held { held_of self.new ≡ held_drop piece (held_of self.old) }
        ensures margins { self.new.margins ≡ self.old.margins }
        ensures lines { self.new.lines ≡ self.old.lines + 1 }
        ensures less { held_len self.new < held_len self.old }
    {
        let len = self.line.len();
        let front = piece.min(len);
        // not by `drain`: it fills a vector of its own for each line, and a long text takes three tenths more instructions
        self.line.copy_within(front.., 0);
        self.line.truncate(len - front);
        self.spaces -= piece - front;
        self.last_break = None;
        self.lines += 1;
    }

    // With the spaces and a byte behind the line.
    pub(crate) fn join(&mut self, b: u8)
        requires short { held_len self.old + 1 ≤ 998 }
        requires few { counted self.old < 1000000 }
        requires valid { Valid self.old.margins.depth self.old.margins.width (held_join (held_of self.old) b) }
        requires width { line_width self.old.margins.depth (held_with (held_of self.old) b) ≤ 998 }
        ensures held { held_of self.new ≡ held_join (held_of self.old) b }
        ensures margins { self.new.margins ≡ self.old.margins }
        ensures lines { self.new.lines ≡ self.old.lines }
    {
        let last_break = self.break_behind();
        append(&mut self.line, self.spaces, b);
        self.last_break = last_break;
        self.spaces = 0;
    }
}
