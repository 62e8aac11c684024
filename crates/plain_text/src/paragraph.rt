// One paragraph, whole, to any taker.
ghost use Rattle.std.specs.Prelude.{ℕ};
ghost use Rattle.fault.specs.Answers.{told};
ghost use Rattle.plain_text.specs.Grows.{Handed, GrowsBy};
ghost use Rattle.plain_text.specs.Handing.{HandedOne};

use taker::feed::feed;
use taker::paragraph_taker::ParagraphTaker;
use taker::ticket;

// Answers the number of its wire lines, or the fault that refused it. A paragraph that is refused in its text is given up.
pub fn hand_paragraph<T: ParagraphTaker>(
    taker: &mut T,
    depth: u32,
    text: &[u8],
) -> Result<u32, T::TakerFault>
    ensures handed { Handed (T.ParagraphTaker.means taker.old) (T.ParagraphTaker.means taker.new) depth text.now (told T.TakerFault.Refusal.means result) }
    ensures whole { GrowsBy (T.ParagraphTaker.means taker.old) (T.ParagraphTaker.means taker.new) (HandedOne (record { depth = depth; text = text.now }) (told T.TakerFault.Refusal.means result)) }
    ensures kept { T.ParagraphTaker.keeps taker.old taker.new }
{
    let open = ticket::open(taker, depth)?;
    let (_, refused) = feed(taker, text);
    match refused {
        None => ticket::end(taker, open),
        Some(f) => {
            let _ = ticket::give_up(taker, open);
            Err(f)
        }
    }
}
