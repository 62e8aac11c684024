// A text cut into its lines.
ghost use Rattle.std.specs.Prelude.{◌≡◌, ◌==◌, [], ◌∷◌, MatchOption, position};
ghost use Rattle.std.specs.Iterator.{YieldsFirstBy, item_count};
ghost use Rattle.plain_text.specs.Lines.{cut, first_line, behind_line};
ghost use Rattle.plain_text.specs.Paragraphs.{paragraph, paragraphs_of};

use crate::line::{Depths, Line};

// Where the first 0A stands.
fn find_feed(text: &[u8]) -> Option<usize>
    ensures { result ≡ position (λ b. b == 10) text.now }
{
    text.iter().position(|b| *b == b'\n')
}

// The first line with its end, and what is behind it.
fn split_line(text: &[u8]) -> Option<(&[u8], &[u8])>
    ensures first { MatchOption result (text.now ≡ []) (λ p. (p.0.now ≡ first_line text.now) × (p.1.now ≡ behind_line text.now)) }
    ensures cut { MatchOption result (cut text.now ≡ []) (λ p. cut text.now ≡ p.0.now ∷ cut p.1.now) }
{
    if text.is_empty() {
        return None;
    }
    match find_feed(text) {
        Some(feed) => Some(text.split_at(feed + 1)),
        None => Some((text, &[])),
    }
}

// The lines that are left of a text. A loop over `split_inclusive` itself found no proof where it is generic over the taker.
#[derive(Drop)]
pub(crate) struct Lines<'a> {
    pub(crate) text: &'a [u8],
    pub(crate) depths: Depths,
}

impl<'a> Iterator for Lines<'a> {
    type Item = Line<'a>;

    ghost next_gives = { YieldsFirstBy paragraph (λ s. paragraphs_of s.depths s.text.now) };

    ghost remaining = { item_count (λ s. paragraphs_of s.depths s.text.now) };

    fn next(&mut self) -> Option<Line<'a>> {
        let (line, rest) = split_line(self.text)?;
        self.text = rest;
        Some(Line::read(line, self.depths))
    }
}
