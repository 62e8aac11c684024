// What is reported of a mail that was composed.
ghost use Rattle.std.specs.Prelude.{◌≡◌, not, length, is_some};
ghost use Rattle.line_ends.specs.LineEnds.{widest};
ghost use Rattle.flowed.specs.Mail.{unfinished, memory_full, fault_of, for_memory};

use compose_text::composed::Outcome;
use fault::cause::Cause;
use fault::fault::Fault;
use fault::layer::Layer;
use fault::refusal::Refusal;
use line_ends::count::widest_line;
use std::fmt;

// Why a mail is not whole.
#[derive(Clone, Copy)]
pub enum Unfinished {
    // a line of the text, counted from 1, was refused
    Line(usize, Fault),
    // the finish behind the last line was refused
    Finish(Fault),
}

impl Unfinished {
    fn of(outcome: Outcome) -> Option<Unfinished>
        ensures { result ≡ unfinished outcome }
    {
        match (outcome.handed.refused, outcome.finish) {
            (Some((line, f)), _) => Some(Unfinished::Line(line, f.fault())),
            (None, Some(Err(f))) => Some(Unfinished::Finish(f.fault())),
            _ => None,
        }
    }

    // Whether memory alone is wanting.
    fn is_memory_full(&self) -> bool
        ensures { result ≡ memory_full (fault_of self.now) }
    {
        let (Unfinished::Line(_, fault) | Unfinished::Finish(fault)) = *self;
        fault.cause == Cause::Full && fault.layer == Layer::End
    }
}

impl fmt::Display for Unfinished {
    fn fmt<W: fmt::Write>(&self, f: &mut fmt::Formatter<W>) -> fmt::Result {
        match self {
            Unfinished::Line(line, fault) => write!(f, "line {line}: {fault}"),
            Unfinished::Finish(fault) => write!(f, "the finish: {fault}"),
        }
    }
}

#[derive(Clone, Copy)]
pub struct MailReport {
    paragraphs: usize,
    lines: usize,
    bytes: usize,
    widest: usize,
    dot: bool,
    unfinished: Option<Unfinished>,
}

impl MailReport {
    pub fn new(outcome: Outcome, wire: &[u8], dot: bool) -> MailReport
        ensures paragraphs { result.paragraphs ≡ outcome.handed.paragraphs }
        ensures lines { result.lines ≡ outcome.handed.lines }
        ensures bytes { result.bytes ≡ length wire.now }
        ensures widest { result.widest ≡ widest 0 0 wire.now }
        ensures dot { result.dot ≡ dot }
        ensures unfinished { result.unfinished ≡ unfinished outcome }
    {
        MailReport {
            paragraphs: outcome.handed.paragraphs,
            lines: outcome.handed.lines,
            bytes: wire.len(),
            widest: widest_line(wire),
            dot,
            unfinished: Unfinished::of(outcome),
        }
    }

    pub fn is_whole(&self) -> bool
        ensures { result ≡ not (is_some self.now.unfinished) }
    {
        self.unfinished.is_none()
    }

    // Whether it is not whole for want of memory alone.
    pub fn lacks_memory(&self) -> bool
        ensures { result ≡ for_memory self.now.unfinished }
    {
        self.unfinished.is_some_and(|why| why.is_memory_full())
    }
}

impl fmt::Display for MailReport {
    fn fmt<W: fmt::Write>(&self, f: &mut fmt::Formatter<W>) -> fmt::Result {
        let MailReport {
            paragraphs,
            lines,
            bytes,
            widest,
            dot,
            unfinished,
        } = *self;
        if let Some(why) = unfinished {
            writeln!(f, "refused            {why}")?;
            // the bytes may hold lines of the refused paragraph
            return writeln!(
                f,
                "gone down before   {paragraphs} paragraphs in {lines} wire lines; {bytes} bytes in all"
            );
        }
        let end_mark = if dot { ", end mark included" } else { "" };
        writeln!(f, "paragraphs         {paragraphs}")?;
        writeln!(f, "wire lines         {lines}")?;
        writeln!(f, "bytes on the wire  {bytes}{end_mark}")?;
        writeln!(f, "widest line        {widest}")
    }
}
