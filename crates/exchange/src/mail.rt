// A mail in memory, as a store keeps it.
ghost use Rattle.std.specs.Prelude.{◌≡◌};
ghost use Rattle.exchange.specs.Mail.{part_of};

use store::record::Record;

#[derive(Clone, Copy)]
pub struct Mail<'a> {
    pub records: &'a [Record],
    pub text: &'a [u8],
}

impl<'a> Mail<'a> {
    // The text of a paragraph; none where its record leaves the text.
    pub(crate) fn text_of(self, paragraph: Record) -> &'a [u8]
        ensures { result.now ≡ part_of self.entry.text.now paragraph.start paragraph.length }
    {
        paragraph
            .start
            .checked_add(paragraph.length)
            .and_then(|end| self.text.get(paragraph.start..end))
            .unwrap_or(&[])
    }
}
