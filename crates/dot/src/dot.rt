// The dot stage: a 2E at a line beginning goes out twice, and close adds the end mark.
ghost use Rattle.std.specs.Prelude.{◌≡◌, ℕ, true, false};
ghost use Rattle.fault.specs.declared.layer.Layer.TheVariants.{Dot as dot_layer};
ghost use Rattle.fault.specs.Answers.{told, answer, raised, arisen};
ghost use Rattle.fault.specs.Faults.{own as arises};
ghost use Rattle.fault.specs.Kinds.{layer_fault};
ghost use Rattle.orders.specs.declared.phase.Phase.TheVariants.{Running as Open, Shut as shut_by};
ghost use Rattle.orders.specs.Steps.{shown};
ghost use Rattle.orders.specs.Lists.{sent, sent_fault};
ghost use Rattle.orders.specs.Phases.{phased, running};
ghost use Rattle.orders.specs.Behind.{Behind};
ghost use Rattle.sink.specs.Sink.{down};
ghost use Rattle.layer.specs.Layer.{layer_means};
ghost use Rattle.dot.specs.declared.line.LineState.TheVariants.{Start as at_first};
ghost use Rattle.dot.specs.Stuffing.{end_mark};
ghost use Rattle.dot.specs.Dot.{line_after, leads, doubled, dot as dot_machine};
ghost use Rattle.dot.specs.Law.{dot_lawful};
ghost use Rattle.dot.specs.ByLines.{Stuffs};

use crate::line::LineState;
use crate::undot::DotUndo;
use fault::cause::Cause;
use fault::layer::Layer;
use fault::layer_fault::LayerFault;
use fault::rise::from_below;
use orders::phase::Phase;
use sink::byte_sink::ByteSink;
use undo::pair::Pair;

// Where a byte leads, unless its 0D and 0A are not paired.
fn next_line(line: LineState, b: u8) -> Option<LineState>
    ensures { result ≡ line_after line b }
{
    match line {
        LineState::AfterCr if b == 0x0A => Some(LineState::Start),
        LineState::AfterCr => None,
        _ if b == 0x0A => None,
        _ if b == 0x0D => Some(LineState::AfterCr),
        _ => Some(LineState::Within),
    }
}

fn doubles(line: LineState, b: u8) -> bool
    ensures { result ≡ leads line b }
{
    line == LineState::Start && b == 0x2E
}

// One byte down, or the same byte twice.
fn send<S: ByteSink>(below: &mut S, b: u8, twice: bool) -> Result<(), LayerFault>
    ensures answered { told layer_fault result ≡ answer tt (raised (sent_fault (S.ByteSink.means below.old) (down (doubled twice b) false))) }
    ensures changed { S.ByteSink.means below.new ≡ sent (S.ByteSink.means below.old) (down (doubled twice b) false) }
    ensures behind { Behind (S.ByteSink.means below.new).foot (S.ByteSink.memory below.old) (S.ByteSink.memory below.new) }
{
    if !twice {
        from_below(below.put(b))?;
        return Ok(());
    }
    from_below(below.put(b))?;
    from_below(below.put(b))?;
    Ok(())
}

// The end mark down, and then the close.
fn send_end<S: ByteSink>(below: &mut S) -> Result<u32, LayerFault>
    ensures answered { told layer_fault result ≡ answer (shown (S.ByteSink.means below.new).foot) (raised (sent_fault (S.ByteSink.means below.old) (down end_mark true))) }
    ensures changed { S.ByteSink.means below.new ≡ sent (S.ByteSink.means below.old) (down end_mark true) }
    ensures behind { Behind (S.ByteSink.means below.new).foot (S.ByteSink.memory below.old) (S.ByteSink.memory below.new) }
{
    from_below(below.put(0x2E))?;
    from_below(below.put(0x0D))?;
    from_below(below.put(0x0A))?;
    Ok(from_below(below.close())?)
}

#[derive(Drop)]
pub struct Dot<S> {
    below: S,
    line: LineState,
    phase: Phase<LayerFault>,
    place: u32,
}

impl<S: ByteSink> Dot<S> {
    // A stage at a line beginning.
    pub fn new(below: S) -> Self
        ensures made { result ≡ record { below = below; line = at_first; phase = Open; place = 0 } }
        ensures stuffs { Stuffs (S.ByteSink.means below) }
    {
        Dot {
            below,
            line: LineState::Start,
            phase: Phase::Running,
            place: 0,
        }
    }

    // The sink below, to look at. A trait over stages and composers would be more text than it and the next are.
    pub fn below(&self) -> &S
        ensures { result.now ≡ self.now.below }
    {
        &self.below
    }

    // The sink below, back.
    pub fn into_below(self) -> S
        ensures { result ≡ self.below }
    {
        self.below
    }
}

impl<S: ByteSink> ByteSink for Dot<S> {
    type SinkFault = LayerFault;

    type Undo = Pair<S::Undo, DotUndo>;

    ghost means = { λ s. layer_means dot_machine (S.ByteSink.means s.below) s.line (phased layer_fault s.phase) s.place };

    ghost lawful = { λ s. dot_lawful (S.ByteSink.means s.below) s.line (phased layer_fault s.phase) s.place (S.ByteSink.lawful s.below) };

    ghost memory = { λ s. S.ByteSink.memory s.below };

    fn put(&mut self, b: u8) -> Result<(), LayerFault> {
        self.phase.going(Layer::Dot, self.place)?;
        let line = self.line;
        let Some(after) = next_line(line, b) else {
            return Err(self.phase.refuse(Cause::Unpaired, Layer::Dot, self.place));
        };
        let sent = send(&mut self.below, b, doubles(line, b));
        self.phase.settle(sent)?;
        self.line = after;
        self.place = self.place.saturating_add(1);
        Ok(())
    }

    fn close(&mut self) -> Result<u32, LayerFault> {
        self.phase.going(Layer::Dot, self.place)?;
        let LineState::Start = self.line else {
            return Err(self.phase.refuse(Cause::Incomplete, Layer::Dot, self.place));
        };
        let closed = send_end(&mut self.below);
        let n = self.phase.settle(closed)?;
        self.phase = Phase::Closed;
        Ok(n)
    }

    fn foot_len(&self) -> u32 {
        self.below.foot_len()
    }

    fn is_fresh(&self) -> bool {
        matches!((self.phase, self.line), (Phase::Running, LineState::Start))
            && self.below.is_fresh()
    }

    fn undoing(&self) -> Pair<S::Undo, DotUndo> {
        Pair::new(self.below.undoing(), DotUndo::new())
    }
}
