// Where the reader stands in a line.
ghost use Rattle.std.specs.Prelude.{◌≤◌};

use crate::text::Text;

mod ends;
mod finish;
mod inside;
mod step;

// The beginning of a signature line's content, which is held.
#[derive(Clone, Copy)]
pub struct Held {
    text: Text,
    ghost few: { text.len ≤ 3 },
}

// The content of a line so far.
#[derive(Clone, Copy)]
pub enum Content {
    Held(Held),
    // no such beginning: it was handed on, and only whether it ends in a space is of use
    Passed { ends_in_space: bool },
}

// A line of a settled depth.
#[derive(Clone, Copy)]
pub struct Line {
    depth: u32,
    // whether its paragraph was open before the line, at the line's own depth, so that there is no value to it
    continued: bool,
    content: Content,
}

#[derive(Clone, Copy)]
pub enum LineState {
    // behind quote marks and nothing else; the depth of the paragraph that is open comes first
    InMarks { open: Option<u32>, marks: u32 },
    InContent(Line),
    BehindCr(Line),
}
