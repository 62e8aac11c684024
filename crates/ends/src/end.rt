// An end: the bottom of a pile, over what holds its bytes.
ghost use Rattle.std.specs.Prelude.{◌≡◌, ℕ};
ghost use Rattle.fault.specs.declared.layer.Layer.TheVariants.{End as end_layer};
ghost use Rattle.fault.specs.Answers.{told, arisen};
ghost use Rattle.fault.specs.Faults.{own as arises};
ghost use Rattle.fault.specs.Kinds.{own_fault};
ghost use Rattle.orders.specs.declared.phase.Phase.TheVariants.{Shut as shut_by};
ghost use Rattle.orders.specs.Phases.{phased, ShutIn};
ghost use Rattle.orders.specs.Steps.{shown};
ghost use Rattle.ends.specs.Ends.{end_means};
ghost use Rattle.ends.specs.Lawful.{end_lawful};

use crate::holder::Holder;
use fault::cap::capped;
use fault::cause::Cause;
use fault::layer::Layer;
use fault::own_fault::OwnFault;
use orders::phase::Phase;
use sink::byte_sink::ByteSink;
use undo::plain::Plain;

#[derive(Drop)]
pub struct End<H> {
    pub(crate) holder: H,
    pub(crate) phase: Phase<OwnFault>,
    // what shut it is a fault of the end
    ghost named: { ShutIn end_layer phase },
}

impl<H: Holder> End<H> {
    fn place(&self) -> u32
        ensures { result ≡ shown (H.foot self.now.holder) }
    {
        capped(self.holder.came().len())
    }
}

impl<H: Holder> ByteSink for End<H> {
    type SinkFault = OwnFault;

    type Undo = Plain;

    ghost means = { λ s. end_means (H.permit s.holder) (H.foot s.holder) (phased own_fault s.phase) };

    ghost lawful = { λ s. end_lawful (H.permit s.holder) (H.foot s.holder) (H.hard s.holder) (H.permitted s.holder) (phased own_fault s.phase) };

    ghost memory = { λ s. H.memory s.holder };

    fn put(&mut self, b: u8) -> Result<(), OwnFault> {
        let place = self.place();
        self.phase.going(Layer::End, place)?;
        // no closure over the phase: what it leaves would have no name in the proof
        if let Err(cause) = self.holder.push(b) {
            return Err(self.phase.refuse(cause, Layer::End, place));
        }
        Ok(())
    }

    fn close(&mut self) -> Result<u32, OwnFault> {
        let n = self.place();
        self.phase.going(Layer::End, n)?;
        // nor here
        if let Err(cause) = self.holder.may_close() {
            return Err(self.phase.refuse(cause, Layer::End, n));
        }
        self.phase = Phase::Closed;
        Ok(n)
    }

    fn foot_len(&self) -> u32 {
        self.place()
    }

    fn is_fresh(&self) -> bool {
        matches!(self.phase, Phase::Running) && self.holder.came().is_empty()
    }

    fn undoing(&self) -> Plain {
        Plain
    }
}
