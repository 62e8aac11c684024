// Faults in words.
use crate::cause::Cause;
use crate::fault::Fault;
use crate::layer::Layer;
use std::fmt;

impl fmt::Display for Layer {
    fn fmt<W: fmt::Write>(&self, f: &mut fmt::Formatter<W>) -> fmt::Result {
        f.write_str(match self {
            Layer::Composer => "the composer",
            Layer::Reader => "the reader",
            Layer::Dot => "the dot stage",
            Layer::DotUndoing => "the undoing of the dot stage",
            Layer::End => "the end",
            Layer::Store => "the store",
        })
    }
}

impl fmt::Display for Cause {
    fn fmt<W: fmt::Write>(&self, f: &mut fmt::Formatter<W>) -> fmt::Result {
        f.write_str(match self {
            Cause::ParagraphOpen => "a paragraph is open already",
            Cause::NoParagraph => "no paragraph is open",
            Cause::TooDeep => "the quote depth is over 100",
            Cause::ParagraphLeft => "a paragraph is still open",
            Cause::AfterClose => "it is closed",
            Cause::AfterShut => "it was shut by an earlier fault",
            Cause::BarredByte => "a byte that may not be text",
            Cause::OverLimit => "over the limit of a million",
            Cause::NoFolding => "the text cannot be folded into lines",
            Cause::GivenUp => "the paragraph was given up",
            Cause::WrongNumber => "the number is not that of the open paragraph",
            Cause::BadStart => "made with a wrong width, or over a sink that is not fresh",
            Cause::Full => "the memory is full",
            Cause::Differs => "a byte differs from the reference or lies past it",
            Cause::Unpaired => "0D and 0A do not stand in pairs",
            Cause::Incomplete => "closed inside a line",
            Cause::AfterEndMark => "a byte stands after the end mark",
        })
    }
}

// The cause and the layer in words, each with its number, then the level and the place.
impl fmt::Display for Fault {
    fn fmt<W: fmt::Write>(&self, f: &mut fmt::Formatter<W>) -> fmt::Result {
        // what is incomplete depends on the layer
        match (self.cause, self.layer) {
            (Cause::Incomplete, Layer::End) => f.write_str("closed before the reference ends")?,
            (Cause::Incomplete, Layer::DotUndoing) => f.write_str("stopped before the end mark")?,
            (cause, _) => write!(f, "{cause}")?,
        }
        let cause = self.cause.number();
        let layer = self.layer;
        let number = self.layer.number();
        let level = self.level;
        let place = self.place;
        write!(
            f,
            " (cause {cause}) in {layer} (layer {number}), level {level}, place {place}"
        )
    }
}
