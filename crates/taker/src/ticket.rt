// A ticket is given by an accepted open and spent by the end or the giving up of its paragraph, over any taker.
ghost use Rattle.std.specs.Prelude.{◌≡◌, Some};
ghost use Rattle.fault.specs.Answers.{told, via};
ghost use Rattle.orders.specs.Steps.{after, verdict, answered};
ghost use Rattle.taker.specs.Paragraph.{opens, ends, gives_up};
ghost use Rattle.taker.specs.Tickets.{number_of};

use crate::paragraph_taker::ParagraphTaker;

// Neither `Copy` nor `Drop`: it cannot be used twice, and cannot be let go.
pub struct Ticket {
    number: u32,
}

impl Ticket {
    // The number of its paragraph.
    pub fn number(&self) -> u32
        ensures { result ≡ self.now.number }
    {
        self.number
    }
}

pub fn open<T: ParagraphTaker>(taker: &mut T, depth: u32) -> Result<Ticket, T::TakerFault>
    ensures answered { told T.TakerFault.Refusal.means (number_of result) ≡ answered (T.ParagraphTaker.means taker.old) (opens depth) }
    ensures changed { T.ParagraphTaker.means taker.new ≡ after (T.ParagraphTaker.means taker.old) (opens depth) }
    ensures kept { T.ParagraphTaker.keeps taker.old taker.new }
{
    let number = taker.open(depth)?;
    Ok(Ticket { number })
}

pub fn end<T: ParagraphTaker>(taker: &mut T, ticket: Ticket) -> Result<u32, T::TakerFault>
    ensures answered { told T.TakerFault.Refusal.means result ≡ answered (T.ParagraphTaker.means taker.old) (ends ticket.number) }
    ensures changed { T.ParagraphTaker.means taker.new ≡ after (T.ParagraphTaker.means taker.old) (ends ticket.number) }
    ensures kept { T.ParagraphTaker.keeps taker.old taker.new }
{
    let Ticket { number } = ticket;
    taker.end(number)
}

pub fn give_up<T: ParagraphTaker>(taker: &mut T, ticket: Ticket) -> T::TakerFault
    ensures answered { verdict (T.ParagraphTaker.means taker.old) (gives_up ticket.number) ≡ Some (T.TakerFault.Refusal.means result) }
    ensures changed { T.ParagraphTaker.means taker.new ≡ after (T.ParagraphTaker.means taker.old) (gives_up ticket.number) }
    ensures kept { T.ParagraphTaker.keeps taker.old taker.new }
{
    let Ticket { number } = ticket;
    taker.give_up(number)
}
