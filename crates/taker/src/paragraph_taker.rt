// A paragraph taker takes five orders: open at a depth, put a text byte, end, give up, finish.
ghost use Rattle.std.specs.Prelude.{◌≡◌, ℕ, Some};
ghost use Rattle.fault.specs.Answers.{told, answer, via};
ghost use Rattle.orders.specs.Steps.{after, verdict, answered, shown};
ghost use Rattle.taker.specs.Paragraph.{Taker, opens, texts, ends, gives_up, finishes};
ghost use Rattle.taker.specs.Law.{Lawful};

use fault::refusal::Refusal;

pub trait ParagraphTaker {
    type TakerFault: Refusal + Copy;

    // What the foot is a list of.
    ghost Item: { Type 0 };

    // What the taker means.
    ghost means: { Self → Taker Item };

    // The law of paragraph takers, which each implementation owes.
    ghost lawful: { (s : Self) → Lawful (means s) };

    // What orders leave of the caller's memory, from the first value to the second.
    ghost keeps: { Self → Self → Type 0 };

    ghost same: { (a : Self) → keeps a a };

    ghost chained: { (a b c : Self) → keeps a b → keeps b c → keeps a c };

    // Answers the paragraph's number.
    fn open(&mut self, depth: u32) -> Result<u32, Self::TakerFault>
        ensures answered { told Self.TakerFault.Refusal.means result ≡ answered (means self.old) (opens depth) }
        ensures changed { means self.new ≡ after (means self.old) (opens depth) }
        ensures kept { keeps self.old self.new };

    fn put(&mut self, b: u8) -> Result<(), Self::TakerFault>
        ensures answered { told Self.TakerFault.Refusal.means result ≡ answer tt (verdict (means self.old) (texts b)) }
        ensures changed { means self.new ≡ after (means self.old) (texts b) }
        ensures kept { keeps self.old self.new };

    // Answers the number of wire lines.
    fn end(&mut self, number: u32) -> Result<u32, Self::TakerFault>
        ensures answered { told Self.TakerFault.Refusal.means result ≡ answered (means self.old) (ends number) }
        ensures changed { means self.new ≡ after (means self.old) (ends number) }
        ensures kept { keeps self.old self.new };

    // Is never accepted: the fault.
    fn give_up(&mut self, number: u32) -> Self::TakerFault
        ensures answered { verdict (means self.old) (gives_up number) ≡ Some (Self.TakerFault.Refusal.means result) }
        ensures changed { means self.new ≡ after (means self.old) (gives_up number) }
        ensures kept { keeps self.old self.new };

    // Answers the foot's length.
    fn finish(&mut self) -> Result<u32, Self::TakerFault>
        ensures answered { told Self.TakerFault.Refusal.means result ≡ answered (means self.old) finishes }
        ensures changed { means self.new ≡ after (means self.old) finishes }
        ensures kept { keeps self.old self.new };

    fn foot_len(&self) -> u32
        ensures { result ≡ shown (means self.now).foot };

    // The fault that shut it, if any did: the question's answer, and no refusal of it.
    fn standing(&self) -> Option<Self::TakerFault>
        ensures { via Self.TakerFault.Refusal.means result ≡ (means self.now).standing };
}
