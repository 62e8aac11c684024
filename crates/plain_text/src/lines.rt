// The lines of a text, one after the other, to the first that is refused.
ghost use Rattle.std.specs.Prelude.{ℕ};
ghost use Rattle.plain_text.specs.Lines.{CutSo};
ghost use Rattle.plain_text.specs.Paragraphs.{paragraphs_of};
ghost use Rattle.plain_text.specs.Grows.{GrowsSome, GrowsBy};
ghost use Rattle.plain_text.specs.Handing.{HandedAll, by_fault};

use crate::cut::Lines;
use crate::line::Depths;
use crate::paragraph::hand_paragraph;
use taker::paragraph_taker::ParagraphTaker;

// What became of the lines of a text.
#[derive(Clone, Copy)]
pub struct Handed<F> {
    // how many paragraphs were ended
    pub paragraphs: usize,
    // how many wire lines they made, as far as 64 bits tell
    pub lines: usize,
    // the first line that was refused, counted from 1, and why
    pub refused: Option<(usize, F)>,
}

// Each line is handed on as one paragraph, in order.
pub fn hand_lines<T: ParagraphTaker>(
    taker: &mut T,
    text: &[u8],
    depths: Depths,
) -> Handed<T::TakerFault>
    ensures grown { GrowsSome (T.ParagraphTaker.means taker.old) (T.ParagraphTaker.means taker.new) }
    ensures handed { GrowsBy (T.ParagraphTaker.means taker.old) (T.ParagraphTaker.means taker.new) (HandedAll (paragraphs_of depths text.now) result.paragraphs result.lines (by_fault T.TakerFault.Refusal.means result.refused)) }
    ensures cut { CutSo text.now }
    ensures kept { T.ParagraphTaker.keeps taker.old taker.new }
{
    let mut paragraphs: usize = 0;
    let mut lines: usize = 0;
    for line in (Lines { text, depths }) {
        match hand_paragraph(taker, line.depth, line.text) {
            Ok(n) => {
                paragraphs += 1;
                lines = lines.saturating_add(n as usize);
            }
            Err(f) => {
                return Handed {
                    paragraphs,
                    lines,
                    refused: Some((paragraphs + 1, f)),
                };
            }
        }
    }
    Handed {
        paragraphs,
        lines,
        refused: None,
    }
}
