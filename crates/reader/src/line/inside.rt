// A byte of a line whose depth is settled.
ghost use Rattle.std.specs.Prelude.{◌≡◌, ◌==◌};
ghost use Rattle.folding.specs.Text.{space};
ghost use Rattle.reading.specs.Machine.{held as holds, content_byte, line_byte};
ghost use Rattle.reader.specs.declared.line.Content.TheVariants.{Passed};
ghost use Rattle.reader.specs.Plans.{bytes_of};
ghost use Rattle.reader.specs.States.{content_of, content_step, passing};

use crate::line::{Content, Held, Line, LineState};
use crate::sign::{Sign, sign_of};
use crate::text::Text;
use fault::cause::Cause;

impl Line {
    // The line once its content was handed on through a byte.
    fn passed(self, b: u8) -> Line
        ensures { result ≡ record { depth = self.depth; continued = self.continued; content = Passed (b == space) } }
    {
        Line {
            content: Content::Passed {
                ends_in_space: b == b' ',
            },
            ..self
        }
    }

    // A byte more than what is held: that is held too, or goes out with it.
    fn held_byte(self, held: Held, b: u8) -> (Text, Line)
        ensures { content_step result ≡ content_byte self.depth self.continued (holds (bytes_of held.text)) b }
    {
        let text = held.text.with(b);
        match sign_of(text.as_slice()) {
            Sign::Other => (text, self.passed(b)),
            _ => {
                let content = Content::Held(Held { text });
                (Text::default(), Line { content, ..self })
            }
        }
    }

    fn content_byte(self, b: u8) -> (Text, Line)
        ensures { content_step result ≡ content_byte self.depth self.continued (content_of self.content) b }
    {
        match self.content {
            Content::Held(held) => self.held_byte(held, b),
            Content::Passed { .. } => (Text::one(b), self.passed(b)),
        }
    }

    pub(crate) fn byte(self, b: u8) -> Result<(Text, LineState), Cause>
        ensures { passing result ≡ line_byte self.depth self.continued (content_of self.content) b }
    {
        match b {
            0x00 => Err(Cause::BarredByte),
            0x0A => Err(Cause::Unpaired),
            0x0D => Ok((Text::default(), LineState::BehindCr(self))),
            _ => {
                let (text, line) = self.content_byte(b);
                Ok((text, LineState::InContent(line)))
            }
        }
    }
}
