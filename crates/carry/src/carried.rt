// A body through a new dot stage into memory, and back through the undoing to a comparison with the body.
ghost use Rattle.std.specs.Prelude.{◌≡◌, ℕ, ◌≤◌, true, List, length, vec_len};
ghost use Rattle.std.specs.List.{AllByRecursion};
ghost use Rattle.fault.specs.Kinds.{own_fault, layer_fault};
ghost use Rattle.orders.specs.declared.phase.Phase.TheVariants.{Running as Open};
ghost use Rattle.orders.specs.Permits.{all_of};
ghost use Rattle.orders.specs.Steps.{shown};
ghost use Rattle.orders.specs.Lists.{reach};
ghost use Rattle.sink.specs.Sink.{down};
ghost use Rattle.ends.specs.Ends.{compare_means};
ghost use Rattle.ends.specs.Buffers.{taken, KeptBehind};
ghost use Rattle.dot.specs.Stuffing.{Clean, text_of, stuffed};
ghost use Rattle.carry.specs.Back.{passed, returned};
ghost use Rattle.carry.specs.Trip.{new_stage, trip_meant, trip_of, way_back};

use crate::back::bring_back;
use crate::send::send;
use crate::trip::{Trip, TripError};
use dot::dot::Dot;
use ends::buffer::Buffer;
use ends::compare::CompareEnd;
use ends::memory::MemoryEnd;
use ends::pile::Pile;
use fault::layer_fault::LayerFault;
use fault::own_fault::OwnFault;
use fault::refusal::Refusal;
use sink::byte_sink::ByteSink;
use undo::stage::UndoStage;

#[derive(Drop)]
pub struct Carried {
    // the wire bytes, in front of the memory
    pub wire: Buffer,
    pub trip: Trip<LayerFault, OwnFault, OwnFault>,
}

// Wire bytes through the undoing, held to the body.
fn return_wire<U: UndoStage>(
    undoing: &mut U,
    body: &[u8],
    wire: &[u8],
) -> Trip<LayerFault, OwnFault, OwnFault>
    ensures { trip_meant layer_fault own_fault own_fault result ≡ way_back (returned (passed (U.UndoStage.means undoing.old) (compare_means body.now 0 Open) wire.now)) }
{
    bring_back(undoing, &mut CompareEnd::new(body), wire).map_err(TripError::Stopped)
}

// The wire bytes are what the stage sends, as far as the memory takes them, and behind them the memory is as it was.
// What was refused nowhere came back as it was sent; and where the body is made of lines and there is room, the wire
// bytes are its lines, stuffed, and the end mark.
pub fn carry(memory: Vec<u8>, body: &[u8]) -> Carried
    ensures wire { taken result.wire ≡ (reach (new_stage memory) (down body.now true) true).list }
    ensures trip { trip_meant layer_fault own_fault own_fault result.trip ≡ trip_of (reach (new_stage memory) (down body.now true) true).fault (shown body.now) }
    ensures kept { KeptBehind memory result.wire }
    ensures stuffed { (ls : List (List ℕ)) → AllByRecursion Clean ls → body.now ≡ text_of ls → length (stuffed ls) ≤ vec_len memory → reach (new_stage memory) (down body.now true) true ≡ all_of (stuffed ls) }
{
    let mut stage = Dot::<MemoryEnd>::over(memory);
    let mut undoing = stage.undoing();
    let sent = send(&mut stage, body);
    let wire = stage.into_buffer();
    let trip = match sent {
        Ok(_) => return_wire(&mut undoing, body, wire.bytes()),
        Err(f) => Err(TripError::Refused(f)),
    };
    Carried { wire, trip }
}
