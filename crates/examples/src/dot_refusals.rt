// Each refusal of the dot stage.
use crate::seen::{is_fault, refused};
use dot::dot::Dot;
use ends::compare::CompareEnd;
use sink::byte_sink::ByteSink;
use sink::feed::feed;
use std::process::Abort;
use std::test::Fail;

// The text is refused behind its first n bytes with a cause of the stage's own; then all is refused with cause 6.
fn refused_behind(rt: &impl Abort, text: &[u8], n: usize, cause: u8) -> Result<(), Fail> {
    let mut stage = Dot::new(CompareEnd::new(text));
    let (taken, f) = feed(&mut stage, text);
    assert!(rt; taken == n && n < 100);
    match f {
        Some(f) => is_fault(rt, f, (cause, 4, 0, n as u32))?,
        None => return Err(Fail::new("accepted")),
    }
    refused(rt, stage.put(0x61), (6, 4, 0, n as u32))
}

#[test]
fn unpaired(rt: HostRuntime) -> Result<(), Fail> {
    refused_behind(&rt, b"a\nb", 1, 15)?;
    refused_behind(&rt, b"\n", 0, 15)?;
    refused_behind(&rt, b"a\r\r\n", 2, 15)?;
    refused_behind(&rt, b"a\rb", 2, 15)
}

// Closed behind the text: refused with the stage's own cause.
fn not_closed(rt: &impl Abort, text: &[u8], cause: u8) -> Result<(), Fail> {
    let mut stage = Dot::new(CompareEnd::new(text));
    let (taken, f) = feed(&mut stage, text);
    assert!(rt; taken == text.len() && taken < 100 && f.is_none());
    refused(rt, stage.close(), (cause, 4, 0, taken as u32))
}

#[test]
fn inside_a_line(rt: HostRuntime) -> Result<(), Fail> {
    not_closed(&rt, b"a", 16)?;
    not_closed(&rt, b"a\r", 16)?;
    not_closed(&rt, b"a\r\nb", 16)
}

#[test]
fn after_close_and_from_below(rt: HostRuntime) -> Result<(), Fail> {
    let mut stage = Dot::new(CompareEnd::new(b".\r\n"));
    assert!(rt; stage.close().is_ok());
    refused(&rt, stage.put(0x61), (5, 4, 0, 0))?;
    refused(&rt, stage.close(), (5, 4, 0, 0))?;
    let mut stage = Dot::new(CompareEnd::new(b"ab"));
    let (taken, f) = feed(&mut stage, b"ac");
    assert!(rt; taken == 1 && stage.foot_len() == 1);
    match f {
        Some(f) => is_fault(&rt, f, (14, 7, 1, 1))?,
        None => return Err(Fail::new("accepted")),
    }
    // the reference is longer: the whole mark stands on the foot, then the close is refused
    let mut stage = Dot::new(CompareEnd::new(b".\r\n."));
    refused(&rt, stage.close(), (16, 7, 1, 3))?;
    assert!(rt; stage.foot_len() == 3);
    Ok(())
}
