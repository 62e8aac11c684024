// What is held, sent down line by line.
ghost use Rattle.std.specs.Prelude.{◌≡◌, ◌+◌, ◌<◌, ◌≤◌, false, ◌&&◌, length, take, ◌==◌};
ghost use Rattle.folding.specs.Held.{is_dashes, full};
ghost use Rattle.fault.specs.Answers.{told};
ghost use Rattle.fault.specs.Kinds.{layer_fault};
ghost use Rattle.folding.specs.WireLine.{wire_line};
ghost use Rattle.folding.specs.Incremental.{ending};
ghost use Rattle.composer.specs.Sending.{WentDown};
ghost use Rattle.composer.specs.State.{held_of, held_text};
ghost use Rattle.composer.specs.Taking.{TookDown, counted, held_len};

use crate::held_line::HeldLine;
use crate::wire_line::WireLine;
use fault::layer_fault::LayerFault;
use sink::byte_sink::ByteSink;

impl HeldLine {
    // The line of a piece of what is held.
    fn send_piece<S: ByteSink>(&self, below: &mut S, piece: usize) -> Result<(), LayerFault>
        requires { piece ≤ held_len self.now }
        ensures { WentDown S.ByteSink.means S.ByteSink.memory below.old below.new (wire_line self.now.margins.depth (take piece (held_text (held_of self.now)))) (told layer_fault result) }
    {
        let front = piece.min(self.line.len());
        let line = WireLine {
            depth: self.margins.depth,
            piece: &self.line[..front],
            spaces: piece - front,
        };
        line.send(below)
    }

    // Two dashes and one space, which are the whole text.
    fn is_signature(&self) -> bool
        ensures { result ≡ (self.now.lines == 0 && (is_dashes (held_of self.now) && self.now.spaces == 1)) }
    {
        self.lines == 0 && self.is_dashes() && self.spaces == 1
    }

    // The last line, without spaces behind it unless it is a signature separator.
    pub(crate) fn send_last<S: ByteSink>(&self, below: &mut S) -> Result<(), LayerFault>
        ensures { WentDown S.ByteSink.means S.ByteSink.memory below.old below.new (wire_line self.now.margins.depth (ending self.now.lines (held_of self.now))) (told layer_fault result) }
    {
        let line = WireLine {
            depth: self.margins.depth,
            piece: &self.line,
            spaces: usize::from(self.is_signature()),
        };
        line.send(below)
    }

    // Takes a byte other than a space: lines go down until the line takes what is left.
    fn take_plain<S: ByteSink>(&mut self, below: &mut S, b: u8) -> Result<(), LayerFault>
        requires plain { (b == 32) ≡ false }
        requires room { full self.old.margins.depth (held_of self.old) ≡ false }
        requires few { counted self.old < 1000000 }
        ensures { TookDown self.old self.new b S.ByteSink.means S.ByteSink.memory below.old below.new (told layer_fault result) }
    {
        while let Some(piece) = self.piece(b) {
            self.send_piece(below, piece)?;
            self.drop_piece(piece);
        }
        self.join(b);
        Ok(())
    }

    // Takes a text byte, and sends the lines that it finishes.
    pub(crate) fn take<S: ByteSink>(&mut self, below: &mut S, b: u8) -> Result<(), LayerFault>
        requires room { (b == 32) ≡ false → full self.old.margins.depth (held_of self.old) ≡ false }
        requires few { counted self.old < 1000000 }
        ensures { TookDown self.old self.new b S.ByteSink.means S.ByteSink.memory below.old below.new (told layer_fault result) }
    {
        if b == 0x20 {
            self.count_space();
            return Ok(());
        }
        self.take_plain(below, b)
    }
}
