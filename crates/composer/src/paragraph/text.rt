// A paragraph is opened, takes its text, and is ended.
ghost use Rattle.std.specs.Prelude.{◌≡◌, ◌+◌, ◌≤◌, true, is_some, IfOk, Some as some, None as none, Ok as ok};
ghost use Rattle.fault.specs.Answers.{told};
ghost use Rattle.fault.specs.Kinds.{layer_fault};
ghost use Rattle.composer.specs.Machine.{begun, text_refusal, text_bytes, on_text, end_bytes, end_tells};
ghost use Rattle.composer.specs.Allowing.{allowed};
ghost use Rattle.composer.specs.Sending.{WentDown, done};
ghost use Rattle.composer.specs.Paragraphs.{within_of};

use crate::held_line::HeldLine;
use crate::paragraph::Paragraph;
use fault::cause::Cause;
use fault::layer_fault::LayerFault;
use sink::byte_sink::ByteSink;
use taker::text::is_barred;

impl Paragraph {
    // None is open.
    pub(crate) fn new(width: usize) -> Paragraph
        requires { width ≤ 998 }
        ensures closed { within_of result ≡ none }
        ensures width { result.held.margins.width ≡ width }
    {
        Paragraph {
            held: HeldLine::new(width),
            bytes: None,
        }
    }

    pub(crate) fn is_open(&self) -> bool
        ensures { result ≡ is_some (within_of self.now) }
    {
        self.bytes.is_some()
    }

    pub(crate) fn open(&mut self, depth: usize)
        requires { depth ≤ 100 }
        ensures within { within_of self.new ≡ some (begun depth) }
        ensures width { self.new.held.margins.width ≡ self.old.held.margins.width }
    {
        self.held.start(depth);
        self.bytes = Some(0);
    }

    // Whether a text byte may come, or the cause that it is refused with.
    pub(crate) fn may_take(&self, b: u8) -> Result<(), Cause>
        ensures { result ≡ allowed (text_refusal self.now.held.margins.width b (within_of self.now)) }
    {
        let bytes = self.bytes.ok_or(Cause::NoParagraph)?;
        if is_barred(b) {
            return Err(Cause::BarredByte);
        }
        if bytes >= 1_000_000 {
            return Err(Cause::OverLimit);
        }
        if self.held.refuses(b) {
            return Err(Cause::NoFolding);
        }
        Ok(())
    }

    // Takes a text byte that is not refused, and sends the lines that it finishes.
    pub(crate) fn take<S: ByteSink>(&mut self, below: &mut S, b: u8) -> Result<(), LayerFault>
        requires { text_refusal self.old.held.margins.width b (within_of self.old) ≡ none }
        ensures sends { WentDown S.ByteSink.means S.ByteSink.memory below.old below.new (text_bytes self.old.held.margins.width b (within_of self.old)) (told layer_fault result) }
        ensures within { told layer_fault result ≡ ok tt → within_of self.new ≡ on_text self.old.held.margins.width b (within_of self.old) }
        ensures width { self.new.held.margins.width ≡ self.old.held.margins.width }
    {
        self.bytes = self.bytes.map(|bytes| bytes + 1);
        self.held.take(below, b)
    }

    // Sends the last line, and says how many there were.
    pub(crate) fn end<S: ByteSink>(&mut self, below: &mut S) -> Result<u32, LayerFault>
        requires { is_some (within_of self.old) ≡ true }
        ensures sends { WentDown S.ByteSink.means S.ByteSink.memory below.old below.new (end_bytes (within_of self.old)) (told layer_fault (done result)) }
        ensures tells { IfOk result (λ n. n ≡ end_tells (within_of self.old)) }
        ensures closed { within_of self.new ≡ none }
        ensures width { self.new.held.margins.width ≡ self.old.held.margins.width }
    {
        self.bytes = None;
        self.held.send_last(below)?;
        let lines = self.held.lines() + 1;
        // emptied here, where the line was walked, so that an open costs the same behind every line
        self.held.start(0);
        Ok(lines)
    }
}
