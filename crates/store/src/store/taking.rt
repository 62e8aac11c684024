// The store takes the five orders.
ghost use Rattle.std.specs.Prelude.{◌≡◌, ℕ, ◌+◌};
ghost use Rattle.orders.specs.declared.phase.Phase.TheVariants.{Closed as closed};
ghost use Rattle.orders.specs.Steps.{shown};
ghost use Rattle.store.specs.Events.{Event};
ghost use Rattle.store.specs.Contents.{contents};
ghost use Rattle.store.specs.Keeps.{Keeps, keeps_same, keeps_then};
ghost use Rattle.store.specs.Meant.{meant, meant_lawful};

use crate::store::Store;
use fault::cap::capped;
use fault::own_fault::OwnFault;
use orders::phase::Phase;
use taker::paragraph_taker::ParagraphTaker;

impl Store {
    // How many opens, text bytes and ends it took.
    fn taken(&self) -> u32
        ensures { result ≡ shown (meant self.now).foot }
    {
        let ended = self.count as usize;
        let opened = ended + usize::from(self.inside);
        capped(self.used + ended + opened)
    }
}

impl ParagraphTaker for Store {
    type TakerFault = OwnFault;

    ghost Item = { Event };

    ghost means = { meant };

    ghost lawful = { meant_lawful };

    ghost keeps = { Keeps };

    ghost same = { keeps_same };

    ghost chained = { keeps_then };

    fn open(&mut self, depth: u32) -> Result<u32, OwnFault> {
        self.admit(self.may_open(depth))?;
        let number = self.write_open(depth);
        self.admit(number)
    }

    fn put(&mut self, b: u8) -> Result<(), OwnFault> {
        self.admit(self.may_put(b))?;
        let written = self.write_text(b);
        self.admit(written)
    }

    fn end(&mut self, number: u32) -> Result<u32, OwnFault> {
        self.admit(self.may_end(number))?;
        self.write_end();
        Ok(1)
    }

    fn give_up(&mut self, number: u32) -> OwnFault {
        self.refuse(self.given_up(number))
    }

    fn finish(&mut self) -> Result<u32, OwnFault> {
        self.admit(self.may_finish())?;
        self.phase = Phase::Closed;
        Ok(self.taken())
    }

    fn foot_len(&self) -> u32 {
        self.taken()
    }

    fn standing(&self) -> Option<OwnFault> {
        self.phase.standing()
    }
}
