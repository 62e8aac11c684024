// Each refusal of the undoing of the dot stage, alone and in a pair.
use crate::seen::refused;
use dot::undot::DotUndo;
use std::process::Abort;
use std::test::Fail;
use undo::pair::Pair;
use undo::plain::Plain;
use undo::stage::UndoStage;

fn takes<U: UndoStage>(rt: &impl Abort, undoing: &mut U, bytes: &[u8]) {
    for b in bytes {
        assert!(rt; undoing.take(*b).is_ok());
    }
}

#[test]
fn refused_bytes(rt: HostRuntime) -> Result<(), Fail> {
    let mut undoing = DotUndo::new();
    takes(&rt, &mut undoing, b"a\r");
    refused(&rt, undoing.take(0x61), (15, 6, 0, 2))?;
    refused(&rt, undoing.take(0x0A), (15, 6, 0, 2))?;
    refused(&rt, undoing.may_stop(), (15, 6, 0, 2))?;
    let mut undoing = DotUndo::new();
    takes(&rt, &mut undoing, b".\r\n");
    refused(&rt, undoing.take(0x61), (17, 6, 0, 3))?;
    let mut undoing = DotUndo::new();
    takes(&rt, &mut undoing, b".\r\n");
    refused(&rt, undoing.take(0x0A), (15, 6, 0, 3))?;
    let mut undoing = DotUndo::new();
    takes(&rt, &mut undoing, b".\r");
    refused(&rt, undoing.take(0x61), (15, 6, 0, 2))?;
    let mut undoing = DotUndo::new();
    refused(&rt, undoing.take(0x0A), (15, 6, 0, 0))
}

#[test]
fn stopping(rt: HostRuntime) -> Result<(), Fail> {
    let mut undoing = DotUndo::new();
    refused(&rt, undoing.may_stop(), (16, 6, 0, 0))?;
    takes(&rt, &mut undoing, b"..a\r\n.");
    refused(&rt, undoing.may_stop(), (16, 6, 0, 6))?;
    takes(&rt, &mut undoing, b"\r\n");
    assert!(rt; undoing.may_stop().is_ok());
    Ok(())
}

// The second stage's refusal stands, though the first would give it nothing for the dot.
#[test]
fn pair_repeats(rt: HostRuntime) -> Result<(), Fail> {
    let mut pair = Pair::new(DotUndo::new(), DotUndo::new());
    takes(&rt, &mut pair, b"..\r\n");
    refused(&rt, pair.take(0x0D), (17, 6, 0, 3))?;
    refused(&rt, pair.take(0x0A), (17, 6, 0, 3))?;
    refused(&rt, pair.take(0x2E), (17, 6, 0, 3))?;
    refused(&rt, pair.may_stop(), (17, 6, 0, 3))
}

// The first stage is asked first; the plain stage may always stop.
#[test]
fn pair_stops(rt: HostRuntime) -> Result<(), Fail> {
    let mut pair = Pair::new(Plain, DotUndo::new());
    refused(&rt, pair.may_stop(), (16, 6, 0, 0))?;
    takes(&rt, &mut pair, b".\r\n");
    assert!(rt; pair.may_stop().is_ok());
    Ok(())
}
