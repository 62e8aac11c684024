// A byte, wherever in a line.
ghost use Rattle.std.specs.Prelude.{◌≡◌, ◌++◌};
ghost use Rattle.reading.specs.Machine.{at_line, goes_on, settling, first_byte, step as step_by};
ghost use Rattle.reader.specs.Plans.{end_if, open_if};
ghost use Rattle.reader.specs.States.{state_of, step_of};

use crate::line::{Content, Held, Line, LineState};
use crate::plan::Plan;
use crate::text::Text;
use fault::cause::Cause;

const QUOTE_MARK: u8 = b'>';

const DEEPEST: u32 = 100;

// The first byte of a line behind its quote marks: a space there is stuffing, and dropped.
fn first_byte(open: Option<u32>, depth: u32, b: u8) -> Result<(Plan, LineState), Cause>
    ensures { step_of result ≡ first_byte «open» depth b }
{
    let continued = open == Some(depth);
    let line = Line {
        depth,
        continued,
        content: Content::Held(Held {
            text: Text::default(),
        }),
    };
    let (text, state) = if b == b' ' {
        (Text::default(), LineState::InContent(line))
    } else {
        line.byte(b)?
    };
    let plan = Plan {
        end_first: open.is_some() && !continued,
        open: (!continued).then_some(depth),
        text,
        end: false,
    };
    Ok((plan, state))
}

impl LineState {
    // At a line beginning, with a paragraph of that depth open, or none.
    pub(crate) fn begin(open: Option<u32>) -> LineState
        ensures { state_of result ≡ at_line «open» }
    {
        LineState::InMarks { open, marks: 0 }
    }

    pub(crate) fn step(self, b: u8) -> Result<(Plan, LineState), Cause>
        ensures { step_of result ≡ step_by (state_of self) b }
    {
        match self {
            LineState::InContent(line) => {
                let (text, state) = line.byte(b)?;
                Ok((Plan::of_text(text), state))
            }
            LineState::InMarks { open, marks } => {
                if b != QUOTE_MARK {
                    return first_byte(open, marks, b);
                }
                if marks >= DEEPEST {
                    return Err(Cause::TooDeep);
                }
                let state = LineState::InMarks {
                    open,
                    marks: marks + 1,
                };
                Ok((Plan::default(), state))
            }
            LineState::BehindCr(line) => match b {
                0x00 => Err(Cause::BarredByte),
                0x0A => Ok(line.end()),
                _ => Err(Cause::Unpaired),
            },
        }
    }
}
