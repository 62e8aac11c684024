// The 0A of a line.
ghost use Rattle.std.specs.Prelude.{◌≡◌, None as none};
ghost use Rattle.reading.specs.Machine.{held as holds, hands, at_line, line_end};
ghost use Rattle.reader.specs.Plans.{bytes_of, events_of};
ghost use Rattle.reader.specs.States.{content_of, made_of};

use crate::line::{Content, Held, Line, LineState};
use crate::plan::Plan;
use crate::sign::{Sign, sign_of};

impl Line {
    // What is held goes out; a signature line is no part of the paragraph before it.
    fn end_held(self, held: Held) -> Plan
        ensures { hands (events_of result) (at_line none) ≡ line_end self.depth self.continued (holds (bytes_of held.text)) }
    {
        let alone = self.continued && matches!(sign_of(held.text.as_slice()), Sign::Signature);
        Plan {
            end_first: alone,
            open: alone.then_some(self.depth),
            text: held.text,
            end: true,
        }
    }

    // A flowed line leaves its paragraph open, any other ends it.
    pub(crate) fn end(self) -> (Plan, LineState)
        ensures { made_of result ≡ line_end self.depth self.continued (content_of self.content) }
    {
        match self.content {
            Content::Held(held) => (self.end_held(held), LineState::begin(None)),
            Content::Passed {
                ends_in_space: true,
            } => (Plan::default(), LineState::begin(Some(self.depth))),
            Content::Passed {
                ends_in_space: false,
            } => (Plan::of_end(), LineState::begin(None)),
        }
    }
}
