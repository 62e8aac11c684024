// Why an order was refused.
ghost use Rattle.std.specs.Prelude.{◌≡◌};
ghost use Rattle.fault.specs.Faults.{leaves};
ghost use Rattle.fault.specs.Numbers.{cause_number};

#[derive(Clone, Copy, Debug, PartialEq, Eq)]
pub enum Cause {
    // open while a paragraph is open
    ParagraphOpen = 1,
    // text, end or give up with no paragraph open
    NoParagraph = 2,
    // a quote depth over 100
    TooDeep = 3,
    // finish with a paragraph open
    ParagraphLeft = 4,
    // any order after close or finish
    AfterClose = 5,
    // any order after shutting
    AfterShut = 6,
    // a byte that may not be text: 00, and in a paragraph's text 0A and 0D
    BarredByte = 7,
    // a byte or a paragraph over the limit of a million
    OverLimit = 8,
    // the text has no folding
    NoFolding = 9,
    // the paragraph was given up
    GivenUp = 10,
    // the number is not that of the open paragraph
    WrongNumber = 11,
    // made with a wrong width, or over a sink that is not fresh
    BadStart = 12,
    // memory or records are full
    Full = 13,
    // the byte differs from the reference, or lies past it
    Differs = 14,
    // 0D and 0A do not stand in pairs
    Unpaired = 15,
    // close or finish inside a line, before the end mark, or before the reference ends
    Incomplete = 16,
    // a byte after the end mark
    AfterEndMark = 17,
}

impl Cause {
    // The number by which a report names the cause; each enum has its own list of numbers, so each casts itself.
    pub fn number(self) -> u8
        ensures { result ≡ cause_number self }
    {
        self as u8
    }

    // Whether a layer that refuses with it, of its own, is left as it was; any other cause shuts.
    pub fn leaves(self) -> bool
        ensures { result ≡ leaves self }
    {
        // by number, as the rule is
        self.number() <= 6
    }
}
