// What the store refuses of its own: what the composer does, and no more than its rules say, so each asks for itself.
ghost use Rattle.std.specs.Prelude.{◌≡◌, OnOk, IfOk, IfErr};
ghost use Rattle.taker.specs.Paragraph.{opens, texts, ends, gives_up, finishes};
ghost use Rattle.store.specs.Meant.{allowed, Turned};

use crate::store::Store;
use fault::cap::capped;
use fault::cause::Cause;
use fault::layer::Layer;
use fault::own_fault::OwnFault;
use taker::text::is_barred;

impl Store {
    pub(crate) fn may_open(&self, depth: u32) -> Result<(), Cause>
        ensures { result ≡ allowed self.now (opens depth) }
    {
        self.phase.running()?;
        if self.inside {
            return Err(Cause::ParagraphOpen);
        }
        if depth > 100 {
            return Err(Cause::TooDeep);
        }
        Ok(())
    }

    pub(crate) fn may_put(&self, b: u8) -> Result<(), Cause>
        ensures { result ≡ allowed self.now (texts b) }
    {
        self.phase.running()?;
        if !self.inside {
            return Err(Cause::NoParagraph);
        }
        if is_barred(b) {
            return Err(Cause::BarredByte);
        }
        Ok(())
    }

    // The number is that of the open paragraph, behind those that are ended.
    pub(crate) fn may_end(&self, number: u32) -> Result<(), Cause>
        ensures { result ≡ allowed self.now (ends number) }
    {
        self.phase.running()?;
        if !self.inside {
            return Err(Cause::NoParagraph);
        }
        if number != self.count + 1 {
            return Err(Cause::WrongNumber);
        }
        Ok(())
    }

    // Giving up is never accepted, though only an end with that number could be.
    pub(crate) fn given_up(&self, number: u32) -> Cause
        ensures { allowed self.now (gives_up number) ≡ Err result }
    {
        self.may_end(number).err().unwrap_or(Cause::GivenUp)
    }

    pub(crate) fn may_finish(&self) -> Result<(), Cause>
        ensures { result ≡ allowed self.now finishes }
    {
        self.phase.running()?;
        if self.inside {
            return Err(Cause::ParagraphLeft);
        }
        Ok(())
    }

    // The store's own refusal, which shuts it unless its cause leaves all as it was.
    pub(crate) fn refuse(&mut self, cause: Cause) -> OwnFault
        ensures { Turned self.old self.new cause result }
    {
        self.phase.refuse(cause, Layer::Store, capped(self.used))
    }

    // What an order comes to: its value, or the refusal.
    pub(crate) fn admit<T>(&mut self, ruling: Result<T, Cause>) -> Result<T, OwnFault>
        ensures same { OnOk result (self.new ≡ self.old) }
        ensures value { IfOk result (λ x. ruling ≡ Ok x) }
        ensures cause { IfErr result (λ f. ruling ≡ Err f.cause) }
        ensures refused { IfErr result (λ f. Turned self.old self.new f.cause f) }
    {
        // no closure over the store: where none is called, nothing would say that the store is as it was
        match ruling {
            Ok(x) => Ok(x),
            Err(cause) => Err(self.refuse(cause)),
        }
    }
}
