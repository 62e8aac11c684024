// What a byte hands on to the taker, in this order: the end of the paragraph before, an open, text, an end.
ghost use Rattle.std.specs.Prelude.{◌≡◌, [], ◌∷◌};
ghost use Rattle.reading.specs.Events.{ended, texts};
ghost use Rattle.reader.specs.Plans.{bytes_of, events_of};

use crate::text::Text;

#[derive(Clone, Copy, Default)]
pub struct Plan {
    // whether the paragraph before is ended; like `end` a plain yes or no, with no value of its own
    pub(crate) end_first: bool,
    // the depth to open at
    pub(crate) open: Option<u32>,
    pub(crate) text: Text,
    pub(crate) end: bool,
}

impl Plan {
    pub(crate) fn of_text(text: Text) -> Plan
        ensures { events_of result ≡ texts (bytes_of text) }
    {
        Plan {
            text,
            ..Plan::default()
        }
    }

    // The end of the open paragraph.
    pub(crate) fn of_end() -> Plan
        ensures { events_of result ≡ ended ∷ [] }
    {
        Plan {
            end: true,
            ..Plan::default()
        }
    }
}
