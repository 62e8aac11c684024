// The composer: widths, depths, every order in every state, and ends that fill up.
use crate::seen::{Numbers, is_fault, numbers, refused};
use composer::composer::Composer;
use dot::dot::Dot;
use ends::memory::MemoryEnd;
use ends::pile::Pile;
use fault::layer_fault::LayerFault;
use fault::refusal::Refusal;
use sink::byte_sink::ByteSink;
use std::process::Abort;
use std::test::Fail;
use taker::feed::feed;
use taker::paragraph_taker::ParagraphTaker;
use taker::ticket;

fn over(rt: &HostRuntime, bytes: usize, width: u32) -> Result<Composer<MemoryEnd>, Fail> {
    Ok(Composer::new(MemoryEnd::new(vec![in rt.alloc(); 0xEEu8; bytes]?), width))
}

fn answers(rt: &impl Abort, r: Result<u32, LayerFault>, n: u32) -> Result<(), Fail> {
    match r {
        Ok(m) => {
            assert!(rt; m == n);
            Ok(())
        },
        Err(_) => Err(Fail::new("refused")),
    }
}

fn stands(rt: &impl Abort, composer: &Composer<MemoryEnd>, seen: Numbers) -> Result<(), Fail> {
    match composer.standing() {
        Some(f) => is_fault(rt, f, seen),
        None => Err(Fail::new("no standing fault")),
    }
}

#[test]
fn widths(rt: HostRuntime) -> Result<(), Fail> {
    for width in [20u32, 998] {
        let mut composer = over(&rt, 8, width)?;
        assert!(rt; composer.standing().is_none());
        assert!(rt; composer.open(0).is_ok());
    }
    for width in [0u32, 19, 999, 4_294_967_295] {
        let mut composer = over(&rt, 8, width)?;
        stands(&rt, &composer, (12, 1, 0, 0))?;
        refused(&rt, composer.open(0), (6, 1, 0, 0))?;
        refused(&rt, composer.finish(), (6, 1, 0, 0))?;
        let (n, f) = feed(&mut composer, b"");
        assert!(rt; n == 0 && f.is_none());
    }
    Ok(())
}

#[test]
fn over_a_sink_not_fresh(rt: HostRuntime) -> Result<(), Fail> {
    let mut end = MemoryEnd::new(vec![in rt.alloc(); 0u8; 4]?);
    assert!(rt; end.put(0x61).is_ok());
    let mut composer = Composer::new(end, 20);
    stands(&rt, &composer, (12, 1, 0, 0))?;
    refused(&rt, composer.open(0), (6, 1, 0, 0))?;
    assert!(rt; composer.foot_len() == 1);
    Ok(())
}

#[test]
fn with_none_open(rt: HostRuntime) -> Result<(), Fail> {
    let mut composer = over(&rt, 300, 20)?;
    refused(&rt, composer.put(0x61), (2, 1, 0, 0))?;
    refused(&rt, composer.end(1), (2, 1, 0, 0))?;
    is_fault(&rt, composer.give_up(1), (2, 1, 0, 0))?;
    refused(&rt, composer.open(101), (3, 1, 0, 0))?;
    assert!(rt; composer.standing().is_none());
    answers(&rt, composer.open(100), 1)?;
    answers(&rt, composer.end(1), 1)?;
    answers(&rt, composer.open(0), 2)?;
    assert!(rt; composer.foot_len() == 102);
    Ok(())
}

#[test]
fn with_one_open(rt: HostRuntime) -> Result<(), Fail> {
    let mut composer = over(&rt, 300, 20)?;
    answers(&rt, composer.open(0), 1)?;
    refused(&rt, composer.open(0), (1, 1, 0, 0))?;
    refused(&rt, composer.open(101), (1, 1, 0, 0))?;
    refused(&rt, composer.finish(), (4, 1, 0, 0))?;
    assert!(rt; composer.standing().is_none());
    assert!(rt; composer.put(0x61).is_ok());
    refused(&rt, composer.end(2), (11, 1, 0, 1))?;
    // a wrong number shuts
    refused(&rt, composer.put(0x61), (6, 1, 0, 1))?;
    is_fault(&rt, composer.give_up(1), (6, 1, 0, 1))?;
    stands(&rt, &composer, (11, 1, 0, 1))
}

#[test]
fn barred_given_up_and_finished(rt: HostRuntime) -> Result<(), Fail> {
    for b in [0x00u8, 0x0A, 0x0D] {
        let mut composer = over(&rt, 8, 20)?;
        assert!(rt; composer.open(0).is_ok());
        assert!(rt; composer.put(0x61).is_ok());
        refused(&rt, composer.put(b), (7, 1, 0, 1))?;
        refused(&rt, composer.end(1), (6, 1, 0, 1))?;
    }
    let mut composer = over(&rt, 8, 20)?;
    assert!(rt; composer.open(0).is_ok());
    is_fault(&rt, composer.give_up(1), (10, 1, 0, 0))?;
    refused(&rt, composer.open(0), (6, 1, 0, 0))?;
    let mut composer = over(&rt, 8, 20)?;
    answers(&rt, composer.finish(), 0)?;
    refused(&rt, composer.open(0), (5, 1, 0, 0))?;
    refused(&rt, composer.finish(), (5, 1, 0, 0))
}

// Texts of spaces only settle to nothing.
#[test]
fn spaces_only(rt: HostRuntime) -> Result<(), Fail> {
    let mut composer = over(&rt, 8, 20)?;
    answers(&rt, composer.open(0), 1)?;
    for _ in 0..1_000_000u32 {
        assert!(rt; composer.put(0x20).is_ok());
    }
    assert!(rt; composer.foot_len() == 0);
    refused(&rt, composer.put(0x20), (8, 1, 0, 1_000_000))?;
    stands(&rt, &composer, (8, 1, 0, 1_000_000))?;
    let mut composer = over(&rt, 8, 20)?;
    answers(&rt, composer.open(1), 1)?;
    let (n, f) = feed(&mut composer, b"     ");
    assert!(rt; n == 5 && f.is_none());
    answers(&rt, composer.end(1), 1)?;
    answers(&rt, composer.finish(), 3)?;
    let (memory, len) = composer.into_below().into_buffer().into_parts();
    assert!(rt; &memory.as_slice()[0..len] == b">\r\n".as_slice());
    Ok(())
}

// By RFC 3676: two paragraphs, at width 20.
const WIRE: &[u8] = b"The quick brown fox \r\njumps\r\n> ..\r\n";

const DOTTED: &[u8] = b"The quick brown fox \r\njumps\r\n> ..\r\n.\r\n";

// The mail as far as it goes: the fault that stopped it.
fn compose<S: ByteSink>(composer: &mut Composer<S>) -> Result<u32, LayerFault> {
    let open = ticket::open(composer, 0)?;
    let (_, refused) = feed(composer, b"The quick brown fox jumps  ");
    if let Some(f) = refused {
        let _ = ticket::give_up(composer, open);
        return Err(f);
    }
    ticket::end(composer, open)?;
    let open = ticket::open(composer, 1)?;
    let (_, refused) = feed(composer, b"..");
    if let Some(f) = refused {
        let _ = ticket::give_up(composer, open);
        return Err(f);
    }
    ticket::end(composer, open)?;
    composer.finish()
}

// Over an end that fills up at each of its bytes: what it holds then is a beginning of the mail.
#[test]
fn every_size_of_memory(rt: HostRuntime) -> Result<(), Fail> {
    for n in 0..40u32 {
        let size = n as usize;
        let mut composer = over(&rt, size, 20)?;
        match compose(&mut composer) {
            Ok(len) => assert!(rt; size >= WIRE.len() && len as usize == WIRE.len()),
            Err(f) => assert!(rt; size < WIRE.len() && numbers(f.fault()) == (13, 7, 1, n)),
        }
        let (memory, len) = composer.into_below().into_buffer().into_parts();
        assert!(rt; len == size.min(WIRE.len()));
        for (i, b) in memory.as_slice().iter().enumerate() {
            if i < WIRE.len() {
                assert!(rt; *b == WIRE[i]);
            } else {
                assert!(rt; *b == 0xEE);
            }
        }
    }
    Ok(())
}

// And over the dot stage: faults of the end come two levels up.
#[test]
fn every_size_of_memory_below_dot(rt: HostRuntime) -> Result<(), Fail> {
    for n in 0..44u32 {
        let size = n as usize;
        let end = MemoryEnd::new(vec![in rt.alloc(); 0xEEu8; size]?);
        let mut composer = Composer::new(Dot::new(end), 20);
        match compose(&mut composer) {
            Ok(len) => assert!(rt; size >= DOTTED.len() && len as usize == DOTTED.len()),
            Err(f) => assert!(rt; size < DOTTED.len() && numbers(f.fault()) == (13, 7, 2, n)),
        }
        let (memory, len) = composer.into_below().into_buffer().into_parts();
        assert!(rt; len == size.min(DOTTED.len()));
        for (i, b) in memory.as_slice().iter().enumerate() {
            if i < len {
                assert!(rt; i < DOTTED.len() && *b == DOTTED[i]);
            }
        }
    }
    Ok(())
}

// Every line but the last of the folding so far has been sent, no less and no more.
#[test]
fn sent_so_far(rt: HostRuntime) -> Result<(), Fail> {
    let mut composer = over(&rt, 64, 20)?;
    answers(&rt, composer.open(0), 1)?;
    let (n, f) = feed(&mut composer, b"The quick brown fox ");
    assert!(rt; n == 20 && f.is_none() && composer.foot_len() == 0);
    assert!(rt; composer.put(0x6A).is_ok());
    assert!(rt; composer.foot_len() == 22);
    answers(&rt, composer.end(1), 2)?;
    assert!(rt; composer.foot_len() == 25);
    Ok(())
}

// 998 letters pass and the 999th is refused, at place 998.
#[test]
fn a_line_without_breaks(rt: HostRuntime) -> Result<(), Fail> {
    let mut composer = over(&rt, 1100, 20)?;
    answers(&rt, composer.open(0), 1)?;
    for _ in 0..998u32 {
        assert!(rt; composer.put(0x61).is_ok());
    }
    refused(&rt, composer.put(0x61), (9, 1, 0, 998))?;
    assert!(rt; composer.foot_len() == 0);
    stands(&rt, &composer, (9, 1, 0, 998))
}
