// The store: every order in every state, and small memories.
use crate::seen::{is_fault, refused};
use std::test::Fail;
use store::record::Record;
use store::store::{Store, StoreMemory};
use taker::feed::feed;
use taker::paragraph_taker::ParagraphTaker;
use taker::ticket;

fn empty(rt: &HostRuntime, records: usize, bytes: usize) -> Result<Store, Fail> {
    let blank = Record {
        depth: 7,
        start: 7,
        length: 7,
    };
    Ok(Store::new(
        vec![in rt.alloc(); blank; records]?,
        vec![in rt.alloc(); 0xEEu8; bytes]?,
    ))
}

#[test]
fn with_none_open(rt: HostRuntime) -> Result<(), Fail> {
    let mut store = empty(&rt, 1, 4)?;
    refused(&rt, store.put(0x61), (2, 8, 0, 0))?;
    refused(&rt, store.end(1), (2, 8, 0, 0))?;
    is_fault(&rt, store.give_up(1), (2, 8, 0, 0))?;
    refused(&rt, store.open(101), (3, 8, 0, 0))?;
    let (n, f) = feed(&mut store, b"");
    assert!(rt; n == 0 && f.is_none());
    assert!(rt; store.standing().is_none());
    assert!(rt; store.open(100).is_ok());
    assert!(rt; store.foot_len() == 1);
    Ok(())
}

#[test]
fn with_one_open(rt: HostRuntime) -> Result<(), Fail> {
    let mut store = empty(&rt, 2, 4)?;
    assert!(rt; store.open(0).is_ok());
    refused(&rt, store.open(0), (1, 8, 0, 0))?;
    refused(&rt, store.finish(), (4, 8, 0, 0))?;
    assert!(rt; store.put(0x61).is_ok());
    refused(&rt, store.end(2), (11, 8, 0, 1))?;
    // wrong numbers shut
    refused(&rt, store.put(0x61), (6, 8, 0, 1))?;
    match store.standing() {
        Some(f) => is_fault(&rt, f, (11, 8, 0, 1)),
        None => Err(Fail::new("no standing fault")),
    }
}

#[test]
fn barred_given_up_and_finished(rt: HostRuntime) -> Result<(), Fail> {
    for b in [0x00u8, 0x0A, 0x0D] {
        let mut store = empty(&rt, 1, 4)?;
        assert!(rt; store.open(0).is_ok());
        refused(&rt, store.put(b), (7, 8, 0, 0))?;
        refused(&rt, store.finish(), (6, 8, 0, 0))?;
    }
    let mut store = empty(&rt, 1, 4)?;
    assert!(rt; store.open(0).is_ok());
    is_fault(&rt, store.give_up(1), (10, 8, 0, 0))?;
    refused(&rt, store.open(0), (6, 8, 0, 0))?;
    let mut store = empty(&rt, 1, 4)?;
    assert!(rt; store.finish().is_ok());
    refused(&rt, store.open(0), (5, 8, 0, 0))?;
    refused(&rt, store.finish(), (5, 8, 0, 0))
}

// Two paragraphs by tickets: what the caller's records and bytes hold then.
#[test]
fn two_paragraphs(rt: HostRuntime) -> Result<(), Fail> {
    let mut store = empty(&rt, 3, 6)?;
    match ticket::open(&mut store, 2) {
        Ok(first) => {
            let (n, f) = feed(&mut store, b"abc");
            // the ticket is spent before anything can return
            let lines = ticket::end(&mut store, first);
            assert!(rt; n == 3 && f.is_none());
            match lines {
                Ok(lines) => assert!(rt; lines == 1),
                Err(_) => return Err(Fail::new("not ended")),
            }
        }
        Err(_) => return Err(Fail::new("not opened")),
    }
    assert!(rt; store.open(0).is_ok());
    let (n, f) = feed(&mut store, b"de");
    assert!(rt; n == 2 && f.is_none());
    assert!(rt; store.end(2).is_ok());
    match store.finish() {
        Ok(len) => assert!(rt; len == 9),
        Err(_) => return Err(Fail::new("not finished")),
    }
    // a copy of what is handed back holds the same
    let StoreMemory {
        records,
        bytes,
        ended,
    } = store.into_memory().clone()?;
    assert!(rt; ended == 2);
    assert!(rt; bytes.as_slice() == b"abcde\xEE".as_slice());
    assert!(rt; records.len() == 3);
    assert!(rt; records[0].depth == 2 && records[0].start == 0 && records[0].length == 3);
    assert!(rt; records[1].depth == 0 && records[1].start == 3 && records[1].length == 2);
    assert!(rt; records[2].depth == 7 && records[2].start == 7 && records[2].length == 7);
    Ok(())
}

#[test]
fn full(rt: HostRuntime) -> Result<(), Fail> {
    let mut store = empty(&rt, 1, 2)?;
    assert!(rt; store.open(0).is_ok());
    let (n, f) = feed(&mut store, b"abc");
    assert!(rt; n == 2);
    match f {
        Some(f) => is_fault(&rt, f, (13, 8, 0, 2))?,
        None => return Err(Fail::new("accepted")),
    }
    let mut store = empty(&rt, 1, 2)?;
    assert!(rt; store.open(0).is_ok());
    assert!(rt; store.end(1).is_ok());
    refused(&rt, store.open(0), (13, 8, 0, 0))?;
    assert!(rt; store.foot_len() == 2);
    Ok(())
}
