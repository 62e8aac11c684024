// A wire line: quote marks, a stuffing space where one is due, a piece, and the spaces behind it.
ghost use Rattle.std.specs.Prelude.{◌≡◌, replicate};
ghost use Rattle.fault.specs.Answers.{told};
ghost use Rattle.fault.specs.Kinds.{layer_fault};
ghost use Rattle.folding.specs.Text.{space};
ghost use Rattle.folding.specs.WireLine.{stuffed, stuffing as stuffing_by, wire_line};
ghost use Rattle.composer.specs.Sending.{WentDown, content};

use crate::held_line::margins::is_stuffed;
use crate::wire::{send_bytes, send_repeated};
use fault::layer_fault::LayerFault;
use sink::byte_sink::ByteSink;

#[derive(Clone, Copy)]
pub struct WireLine<'a> {
    pub depth: usize,
    pub piece: &'a [u8],
    pub spaces: usize,
}

impl WireLine<'_> {
    fn is_stuffed(&self) -> bool
        ensures { result ≡ stuffed self.now.depth (content self.now) }
    {
        match self.piece.first() {
            Some(first) => is_stuffed(self.depth, *first),
            None => self.spaces > 0,
        }
    }

    // How many spaces stuff it.
    fn stuffing(&self) -> usize
        ensures { replicate result space ≡ stuffing_by (stuffed self.now.depth (content self.now)) }
    {
        usize::from(self.is_stuffed())
    }

    // Inlined, since of an empty line the call takes more time than all that it sends.
    #[inline(always)]
    pub(crate) fn send<S: ByteSink>(&self, below: &mut S) -> Result<(), LayerFault>
        ensures { WentDown S.ByteSink.means S.ByteSink.memory below.old below.new (wire_line self.now.depth (content self.now)) (told layer_fault result) }
    {
        send_repeated(below, 0x3E, self.depth)?;
        send_repeated(below, 0x20, self.stuffing())?;
        send_bytes(below, self.piece)?;
        send_repeated(below, 0x20, self.spaces)?;
        send_bytes(below, &[0x0D, 0x0A])
    }
}
