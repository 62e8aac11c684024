// What the composer refuses of itself.
ghost use Rattle.std.specs.Prelude.{◌≡◌};
ghost use Rattle.composer.specs.Machine.{open_refusal, text_refusal, end_refusal, finish_refusal};
ghost use Rattle.composer.specs.Allowing.{allowed_in};
ghost use Rattle.composer.specs.Paragraphs.{within_of};
ghost use Rattle.composer.specs.Composers.{Refuses, Checks, answered_phase};

use crate::composer::Composer;
use fault::cause::Cause;
use fault::layer::Layer;
use fault::layer_fault::LayerFault;

impl<S> Composer<S> {
    // Refuses an order, and is shut by it, unless the cause leaves all as it was.
    pub(crate) fn refuse(&mut self, cause: Cause) -> LayerFault
        ensures { Refuses self.old self.new cause result }
    {
        self.phase.refuse(cause, Layer::Composer, self.place)
    }

    // Goes on with an order that may be taken, and refuses another.
    pub(crate) fn checked(&mut self, may: Result<(), Cause>) -> Result<(), LayerFault>
        ensures { Checks self.old self.new may result }
    {
        // no closure over the composer: what it leaves would have no name in the proofs of the orders
        if let Err(cause) = may {
            return Err(self.refuse(cause));
        }
        Ok(())
    }

    // An answer from below, which shuts the composer if it is a refusal.
    pub(crate) fn shut_by<T>(&mut self, answer: Result<T, LayerFault>) -> Result<T, LayerFault>
        ensures answered { result ≡ answer }
        ensures left { self.new ≡ record { below = self.old.below; opened = self.old.opened; paragraph = self.old.paragraph; phase = answered_phase answer self.old.phase; place = self.old.place } }
    {
        self.phase.settle(answer)
    }

    pub(crate) fn may_open(&self, depth: u32) -> Result<(), Cause>
        ensures { result ≡ allowed_in self.now.phase (open_refusal depth self.now.opened (within_of self.now.paragraph)) }
    {
        self.phase.running()?;
        if self.paragraph.is_open() {
            return Err(Cause::ParagraphOpen);
        }
        if depth > 100 {
            return Err(Cause::TooDeep);
        }
        if self.opened >= 1_000_000 {
            return Err(Cause::OverLimit);
        }
        Ok(())
    }

    pub(crate) fn may_take(&self, b: u8) -> Result<(), Cause>
        ensures { result ≡ allowed_in self.now.phase (text_refusal self.now.paragraph.held.margins.width b (within_of self.now.paragraph)) }
    {
        self.phase.running()?;
        self.paragraph.may_take(b)
    }

    pub(crate) fn may_end(&self, number: u32) -> Result<(), Cause>
        ensures { result ≡ allowed_in self.now.phase (end_refusal number self.now.opened (within_of self.now.paragraph)) }
    {
        self.phase.running()?;
        if !self.paragraph.is_open() {
            return Err(Cause::NoParagraph);
        }
        if number != self.opened {
            return Err(Cause::WrongNumber);
        }
        Ok(())
    }

    // An open paragraph is not ended by a finish.
    pub(crate) fn may_finish(&self) -> Result<(), Cause>
        ensures { result ≡ allowed_in self.now.phase (finish_refusal (within_of self.now.paragraph)) }
    {
        self.phase.running()?;
        let left = self.paragraph.is_open();
        if left {
            return Err(Cause::ParagraphLeft);
        }
        Ok(())
    }
}
