// A line of a plain text: its quote depth, and its text without its end.
ghost use Rattle.std.specs.Prelude.{◌≡◌, ◌≤◌, length};
ghost use Rattle.folding.specs.Reading.{unstuffed};
ghost use Rattle.plain_text.specs.Lines.{line_text};
ghost use Rattle.plain_text.specs.Paragraphs.{marks, paragraph, paragraph_of};

use fault::cap::capped;

// How deep a line is quoted.
#[derive(Clone, Copy)]
pub enum Depths {
    // each line at this depth
    Each(u32),
    // by its leading 3E bytes; one 20 behind them is dropped
    Marks,
}

// A line as it is handed on.
#[derive(Clone, Copy)]
pub struct Line<'a> {
    pub depth: u32,
    pub text: &'a [u8],
}

// Without the LF or CRLF at its end.
fn without_end(line: &[u8]) -> &[u8]
    ensures { result.now ≡ line_text line.now }
{
    let Some(text) = line.strip_suffix(b"\n") else {
        return line;
    };
    text.strip_suffix(b"\r").unwrap_or(text)
}

// How many 3E bytes stand in front.
fn quote_marks(text: &[u8]) -> usize
    ensures count { result ≡ marks text.now }
    ensures within { result ≤ length text.now }
{
    text.iter().take_while(|b| **b == b'>').count()
}

// Without one space in front.
fn without_space(text: &[u8]) -> &[u8]
    ensures { result.now ≡ unstuffed text.now }
{
    text.strip_prefix(b" ").unwrap_or(text)
}

impl<'a> Line<'a> {
    // A line with its end, if it has one.
    pub(crate) fn read(line: &'a [u8], depths: Depths) -> Line<'a>
        ensures { paragraph result ≡ paragraph_of depths (line_text line.now) }
    {
        let text = without_end(line);
        match depths {
            Depths::Each(depth) => Line { depth, text },
            Depths::Marks => {
                let marks = quote_marks(text);
                Line {
                    depth: capped(marks),
                    text: without_space(&text[marks..]),
                }
            }
        }
    }
}
