// A taker with the bare number of its open paragraph.
ghost use Rattle.std.specs.Prelude.{◌≡◌, [], ◌∷◌};
ghost use Rattle.fault.specs.Answers.{told, answer, raised};
ghost use Rattle.fault.specs.Kinds.{layer_fault};
ghost use Rattle.orders.specs.Steps.{after, verdict, value};
ghost use Rattle.taker.specs.Paragraph.{finishes};
ghost use Rattle.reading.specs.Events.{opened, ended, texts};
ghost use Rattle.reader.specs.Plans.{end_if, open_if, events_of};
ghost use Rattle.reader.specs.Deliveries.{Delivered};

use crate::plan::Plan;
use fault::layer_fault::LayerFault;
use fault::rise::from_below;
use taker::feed::feed;
use taker::paragraph_taker::ParagraphTaker;

#[derive(Drop)]
pub struct Delivery<T> {
    pub(crate) taker: T,
    // that the last accepted open answered
    pub(crate) number: u32,
}

impl<T: ParagraphTaker> Delivery<T> {
    fn open(&mut self, depth: u32) -> Result<(), LayerFault>
        ensures { Delivered T.ParagraphTaker.means T.ParagraphTaker.keeps self.old self.new (opened depth ∷ []) (told layer_fault result) }
    {
        self.number = from_below(self.taker.open(depth))?;
        Ok(())
    }

    fn text(&mut self, bytes: &[u8]) -> Result<(), LayerFault>
        ensures { Delivered T.ParagraphTaker.means T.ParagraphTaker.keeps self.old self.new (texts bytes.now) (told layer_fault result) }
    {
        let (_, fault) = feed(&mut self.taker, bytes);
        from_below(fault.map_or(Ok(()), Err))?;
        Ok(())
    }

    fn end(&mut self) -> Result<(), LayerFault>
        ensures { Delivered T.ParagraphTaker.means T.ParagraphTaker.keeps self.old self.new (ended ∷ []) (told layer_fault result) }
    {
        from_below(self.taker.end(self.number))?;
        Ok(())
    }

    // The end of the open paragraph, if it is to be ended.
    pub(crate) fn end_if(&mut self, due: bool) -> Result<(), LayerFault>
        ensures { Delivered T.ParagraphTaker.means T.ParagraphTaker.keeps self.old self.new (end_if due) (told layer_fault result) }
    {
        if due { self.end() } else { Ok(()) }
    }

    fn open_if(&mut self, depth: Option<u32>) -> Result<(), LayerFault>
        ensures { Delivered T.ParagraphTaker.means T.ParagraphTaker.keeps self.old self.new (open_if depth) (told layer_fault result) }
    {
        match depth {
            Some(d) => self.open(d),
            None => Ok(()),
        }
    }

    // All of a plan, to the first refusal.
    pub(crate) fn hand_on(&mut self, plan: &Plan) -> Result<(), LayerFault>
        ensures { Delivered T.ParagraphTaker.means T.ParagraphTaker.keeps self.old self.new (events_of plan.now) (told layer_fault result) }
    {
        self.end_if(plan.end_first)?;
        self.open_if(plan.open)?;
        self.text(plan.text.as_slice())?;
        self.end_if(plan.end)
    }

    // The finish of the taker, and what it answers.
    pub(crate) fn finish(&mut self) -> Result<u32, LayerFault>
        ensures answered { told layer_fault result ≡ answer (value (T.ParagraphTaker.means self.old.taker) finishes) (raised (verdict (T.ParagraphTaker.means self.old.taker) finishes)) }
        ensures changed { T.ParagraphTaker.means self.new.taker ≡ after (T.ParagraphTaker.means self.old.taker) finishes }
        ensures number { self.new.number ≡ self.old.number }
        ensures kept { T.ParagraphTaker.keeps self.old.taker self.new.taker }
    {
        Ok(from_below(self.taker.finish())?)
    }
}
