// The composer takes paragraph orders.
ghost use Rattle.std.specs.Prelude.{ℕ};
ghost use Rattle.fault.specs.Kinds.{layer_fault};
ghost use Rattle.orders.specs.Phases.{phased};
ghost use Rattle.composer.specs.Keeping.{Keeps, keeps_same, keeps_chained};
ghost use Rattle.composer.specs.Composers.{state_of, means_of};
ghost use Rattle.composer.specs.Law.{composer_lawful};

use crate::composer::Composer;
use crate::wire::send_close;
use fault::cause::Cause;
use fault::layer_fault::LayerFault;
use orders::phase::Phase;
use sink::byte_sink::ByteSink;
use taker::paragraph_taker::ParagraphTaker;

impl<S: ByteSink> ParagraphTaker for Composer<S> {
    type TakerFault = LayerFault;

    ghost Item = { ℕ };

    ghost means = { λ c. means_of S.ByteSink.means c };

    ghost lawful = { λ c. composer_lawful (S.ByteSink.means c.below) (state_of c) (phased layer_fault c.phase) c.place (S.ByteSink.lawful c.below) };

    ghost keeps = { λ a b. Keeps (S.ByteSink.means a.below).foot (S.ByteSink.means b.below).foot (S.ByteSink.memory a.below) (S.ByteSink.memory b.below) };

    ghost same = { λ a. keeps_same (S.ByteSink.means a.below).foot (S.ByteSink.memory a.below) };

    ghost chained = { λ a b c. keeps_chained (S.ByteSink.means a.below).foot (S.ByteSink.means b.below).foot (S.ByteSink.means c.below).foot (S.ByteSink.memory a.below) (S.ByteSink.memory b.below) (S.ByteSink.memory c.below) };

    fn open(&mut self, depth: u32) -> Result<u32, LayerFault> {
        self.checked(self.may_open(depth))?;
        let number = self.opened + 1;
        self.opened = number;
        self.paragraph.open(depth as usize);
        Ok(number)
    }

    fn put(&mut self, b: u8) -> Result<(), LayerFault> {
        self.checked(self.may_take(b))?;
        let sent = self.paragraph.take(&mut self.below, b);
        self.shut_by(sent)?;
        self.place = self.place.saturating_add(1);
        Ok(())
    }

    fn end(&mut self, number: u32) -> Result<u32, LayerFault> {
        self.checked(self.may_end(number))?;
        let sent = self.paragraph.end(&mut self.below);
        self.shut_by(sent)
    }

    fn give_up(&mut self, number: u32) -> LayerFault {
        let cause = self.may_end(number).err().unwrap_or(Cause::GivenUp);
        self.refuse(cause)
    }

    fn finish(&mut self) -> Result<u32, LayerFault> {
        self.checked(self.may_finish())?;
        let closed = send_close(&mut self.below);
        let n = self.shut_by(closed)?;
        self.phase = Phase::Closed;
        Ok(n)
    }

    fn foot_len(&self) -> u32 {
        self.below.foot_len()
    }

    fn standing(&self) -> Option<LayerFault> {
        self.phase.standing()
    }
}
