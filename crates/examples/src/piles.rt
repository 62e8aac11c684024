// Small mails through piles: every size of memory, every cut, a stage over a stage, either end.
use crate::seen::numbers;
use carry::carried::carry;
use carry::trip::TripError;
use dot::dot::Dot;
use ends::compare::CompareEnd;
use ends::memory::MemoryEnd;
use ends::pile::Pile;
use fault::refusal::Refusal;
use sink::byte_sink::ByteSink;
use sink::feed::feed;
use std::process::Abort;
use std::test::Fail;

// By RFC 5321, section 4.5.2.
const BODY: &[u8] = b".x\r\n..\r\nend.\r\n";

const WIRE: &[u8] = b"..x\r\n...\r\nend.\r\n.\r\n";

// With memory for n bytes: what the mail's wire bytes leave there, and the fault.
fn in_memory_of(rt: &(impl Abort + AllocGlobal), n: u32) -> Result<(), Fail> {
    let size = n as usize;
    let carried = carry(vec![in rt.alloc(); 0xEEu8; size]?, BODY);
    assert!(rt; carried.wire.bytes().len() == size.min(WIRE.len()));
    assert!(rt; carried.wire.memory().len() == size);
    for (i, b) in carried.wire.memory().iter().enumerate() {
        if i < WIRE.len() {
            assert!(rt; *b == WIRE[i]);
        } else {
            assert!(rt; *b == 0xEE);
        }
    }
    match carried.trip {
        Err(TripError::Refused(f)) => {
            assert!(rt; numbers(f.fault()) == (13, 7, 1, n) && size < WIRE.len());
            Ok(())
        },
        Ok(back) => {
            assert!(rt; back == 14 && size >= WIRE.len());
            Ok(())
        },
        Err(TripError::Stopped(_)) => Err(Fail::new("stopped on the way back")),
    }
}

#[test]
fn every_size_of_memory(rt: HostRuntime) -> Result<(), Fail> {
    for n in 0..22u32 {
        in_memory_of(&rt, n)?;
    }
    Ok(())
}

// The body in two chunks, the first of n bytes.
fn cut_at(rt: &(impl Abort + AllocGlobal), n: usize) -> Result<(), Fail> {
    assert!(rt; n <= BODY.len());
    let mut stage = Dot::new(MemoryEnd::new(vec![in rt.alloc(); 0u8; 19]?));
    let (a, f) = feed(&mut stage, &BODY[0..n]);
    assert!(rt; a == n && f.is_none());
    let (b, f) = feed(&mut stage, &BODY[n..]);
    assert!(rt; b == BODY.len() - n && f.is_none());
    assert!(rt; stage.close().is_ok());
    let (memory, len) = stage.into_buffer().into_parts();
    assert!(rt; len == 19);
    assert!(rt; memory.as_slice() == WIRE);
    Ok(())
}

#[test]
fn every_cut(rt: HostRuntime) -> Result<(), Fail> {
    for n in 0..15usize {
        cut_at(&rt, n)?;
    }
    Ok(())
}

// A stage over a stage over either end: the lower one doubles again, and adds a mark of its own.
#[test]
fn stage_over_stage(rt: HostRuntime) -> Result<(), Fail> {
    let twice = b"...x\r\n..\r\n.\r\n";
    let mut pile = Dot::new(Dot::new(CompareEnd::new(twice)));
    assert!(rt; pile.is_fresh());
    let (n, f) = feed(&mut pile, b".x\r\n");
    assert!(rt; n == 4 && f.is_none());
    assert!(rt; !pile.is_fresh());
    match pile.close() {
        Ok(len) => assert!(rt; len == 13),
        Err(_) => return Err(Fail::new("not closed")),
    }
    let mut pile = Dot::new(Dot::new(MemoryEnd::new(vec![in rt.alloc(); 0u8; 12]?)));
    let (n, f) = feed(&mut pile, b".x\r\n");
    assert!(rt; n == 4 && f.is_none());
    match pile.close() {
        Ok(_) => Err(Fail::new("closed")),
        Err(f) => {
            assert!(rt; numbers(f.fault()) == (13, 7, 2, 12));
            Ok(())
        },
    }
}
