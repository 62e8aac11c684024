// A mail handed to a taker, with its text in pieces.
ghost use Rattle.std.specs.Prelude.{◌≡◌, ℕ, ◌+◌, List};
ghost use Rattle.fault.specs.Answers.{via, told};
ghost use Rattle.taker.specs.Paragraph.{text_orders};
ghost use Rattle.exchange.specs.Mail.{paragraph_orders, paragraphs_orders};
ghost use Rattle.exchange.specs.Given.{Given, SentSo};

use crate::answers::Answers;
use crate::mail::Mail;
use fault::cap::capped;
use store::record::Record;
use taker::feed::feed;
use taker::paragraph_taker::ParagraphTaker;

// Text in pieces of `cut` bytes, the last perhaps shorter; all of it is handed on, also past a refusal. Answers the
// first refusal, an Option that no `?` may take, since the mail goes on past it.
fn feed_pieces<T: ParagraphTaker>(taker: &mut T, text: &[u8], cut: usize) -> Option<T::TakerFault>
    ensures given { Given (T.ParagraphTaker.means taker.old) (T.ParagraphTaker.means taker.new) (text_orders text.now) (via T.TakerFault.Refusal.means result) }
    ensures kept { T.ParagraphTaker.keeps taker.old taker.new }
{
    let mut first = None;
    for piece in text.chunks(cut.max(1)) {
        let (_, fault) = feed(taker, piece);
        first = first.or(fault);
    }
    first
}

// A paragraph, ended by its number. Answers the first refusal, past which it goes on.
fn send_paragraph<T: ParagraphTaker>(
    taker: &mut T,
    mail: Mail,
    paragraph: Record,
    number: u32,
    cut: usize,
) -> Option<T::TakerFault>
    ensures given { Given (T.ParagraphTaker.means taker.old) (T.ParagraphTaker.means taker.new) (paragraph_orders mail.entry.text.now paragraph number) (via T.TakerFault.Refusal.means result) }
    ensures kept { T.ParagraphTaker.keeps taker.old taker.new }
{
    let opened = taker.open(paragraph.depth);
    let fed = feed_pieces(taker, mail.text_of(paragraph), cut);
    let ended = taker.end(number);
    opened.err().or(fed).or(ended.err())
}

// The paragraphs of a mail, each ended by its number. Answers the first refusal, past which they go on.
fn send_paragraphs<T: ParagraphTaker>(
    taker: &mut T,
    mail: Mail,
    cut: usize,
) -> Option<T::TakerFault>
    ensures given { Given (T.ParagraphTaker.means taker.old) (T.ParagraphTaker.means taker.new) (paragraphs_orders mail.entry.text.now 1 mail.entry.records.now) (via T.TakerFault.Refusal.means result) }
    ensures kept { T.ParagraphTaker.keeps taker.old taker.new }
{
    let mut first = None;
    for (i, paragraph) in mail.records.iter().enumerate() {
        let refused = send_paragraph(taker, mail, *paragraph, capped(i + 1), cut);
        first = first.or(refused);
    }
    first
}

// A mail, and the finish behind it.
pub fn send_mail<T: ParagraphTaker>(taker: &mut T, mail: Mail, cut: usize) -> Answers<T::TakerFault>
    ensures given { SentSo (T.ParagraphTaker.means taker.old) (T.ParagraphTaker.means taker.new) mail.entry.text.now mail.entry.records.now (via T.TakerFault.Refusal.means result.refused) (told T.TakerFault.Refusal.means result.finish) }
    ensures kept { T.ParagraphTaker.keeps taker.old taker.new }
{
    let refused = send_paragraphs(taker, mail, cut);
    let finish = taker.finish();
    Answers { refused, finish }
}
