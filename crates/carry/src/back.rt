// Wire bytes through an undoing stage into a sink, and the close behind them.
ghost use Rattle.std.specs.Prelude.{◌≡◌, ℕ, []};
ghost use Rattle.fault.specs.Kinds.{own_fault};
ghost use Rattle.orders.specs.Behind.{Behind};
ghost use Rattle.undo.specs.Undoing.{fed};
ghost use Rattle.carry.specs.Back.{stop_at, sink_at, told_back, unless, passed, returned, sink_left};

use crate::stop::Stop;
use fault::own_fault::OwnFault;
use sink::byte_sink::ByteSink;
use undo::stage::UndoStage;

// One byte through the undoing, and what that gives into the sink.
fn pass<U: UndoStage, S: ByteSink>(
    undoing: &mut U,
    sink: &mut S,
    b: u8,
) -> Result<(), Stop<OwnFault, S::SinkFault>>
    ensures stop { told_back own_fault S.SinkFault.Refusal.means result ≡ unless tt (stop_at ((U.UndoStage.means undoing.old).takes [] b) (S.ByteSink.means sink.old)) }
    ensures undoing { U.UndoStage.means undoing.new ≡ fed (U.UndoStage.means undoing.old) b }
    ensures sink { S.ByteSink.means sink.new ≡ sink_at ((U.UndoStage.means undoing.old).takes [] b) (S.ByteSink.means sink.old) }
    ensures behind { Behind (S.ByteSink.means sink.new).foot (S.ByteSink.memory sink.old) (S.ByteSink.memory sink.new) }
{
    match undoing.take(b)? {
        Some(c) => sink.put(c).map_err(Stop::Sink),
        None => Ok(()),
    }
}

// How many bytes went through, and what stopped them; told side by side, as a chunk's feeding is, since both are asked for.
pub fn pass_all<U: UndoStage, S: ByteSink>(
    undoing: &mut U,
    sink: &mut S,
    wire: &[u8],
) -> (usize, Result<(), Stop<OwnFault, S::SinkFault>>)
    ensures count { result.0 ≡ (passed (U.UndoStage.means undoing.old) (S.ByteSink.means sink.old) wire.now).count }
    ensures stop { told_back own_fault S.SinkFault.Refusal.means result.1 ≡ unless tt (passed (U.UndoStage.means undoing.old) (S.ByteSink.means sink.old) wire.now).stop }
    ensures undoing { U.UndoStage.means undoing.new ≡ (passed (U.UndoStage.means undoing.old) (S.ByteSink.means sink.old) wire.now).undoing }
    ensures sink { S.ByteSink.means sink.new ≡ (passed (U.UndoStage.means undoing.old) (S.ByteSink.means sink.old) wire.now).sink }
    ensures behind { Behind (S.ByteSink.means sink.new).foot (S.ByteSink.memory sink.old) (S.ByteSink.memory sink.new) }
{
    for (i, b) in wire.iter().enumerate() {
        if let Err(stop) = pass(undoing, sink, *b) {
            return (i, Err(stop));
        }
    }
    (wire.len(), Ok(()))
}

// A whole wire text: the sink's length at its close, or what stopped it.
pub fn bring_back<U: UndoStage, S: ByteSink>(
    undoing: &mut U,
    sink: &mut S,
    wire: &[u8],
) -> Result<u32, Stop<OwnFault, S::SinkFault>>
    ensures answered { told_back own_fault S.SinkFault.Refusal.means result ≡ returned (passed (U.UndoStage.means undoing.old) (S.ByteSink.means sink.old) wire.now) }
    ensures undoing { U.UndoStage.means undoing.new ≡ (passed (U.UndoStage.means undoing.old) (S.ByteSink.means sink.old) wire.now).undoing }
    ensures sink { S.ByteSink.means sink.new ≡ sink_left (passed (U.UndoStage.means undoing.old) (S.ByteSink.means sink.old) wire.now) }
    ensures behind { Behind (S.ByteSink.means sink.new).foot (S.ByteSink.memory sink.old) (S.ByteSink.memory sink.new) }
{
    pass_all(undoing, sink, wire).1?;
    undoing.may_stop()?;
    sink.close().map_err(Stop::Sink)
}
