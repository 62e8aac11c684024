// What may not be text of a paragraph.
ghost use Rattle.std.specs.Prelude.{◌≡◌};
ghost use Rattle.taker.specs.Paragraph.{barred};

pub fn is_barred(b: u8) -> bool
    ensures { result ≡ barred b }
{
    matches!(b, 0x00 | 0x0A | 0x0D)
}
