// Each refusal of the ends.
use crate::seen::refused;
use ends::compare::CompareEnd;
use ends::memory::MemoryEnd;
use sink::byte_sink::ByteSink;
use std::test::Fail;

#[test]
fn memory_end(rt: HostRuntime) -> Result<(), Fail> {
    let mut end = MemoryEnd::new(vec![in rt.alloc(); 0u8; 1]?);
    assert!(rt; end.put(0x61).is_ok());
    refused(&rt, end.put(0x62), (13, 7, 0, 1))?;
    refused(&rt, end.put(0x62), (6, 7, 0, 1))?;
    refused(&rt, end.close(), (6, 7, 0, 1))?;
    assert!(rt; end.foot_len() == 1);
    let mut end = MemoryEnd::new(vec![in rt.alloc(); 0u8; 1]?);
    assert!(rt; end.close().is_ok());
    refused(&rt, end.put(0x61), (5, 7, 0, 0))?;
    refused(&rt, end.close(), (5, 7, 0, 0))
}

#[test]
fn comparing_end(rt: HostRuntime) -> Result<(), Fail> {
    let mut end = CompareEnd::new(b"ab");
    assert!(rt; end.is_fresh());
    assert!(rt; end.put(0x61).is_ok());
    refused(&rt, end.put(0x63), (14, 7, 0, 1))?;
    refused(&rt, end.put(0x62), (6, 7, 0, 1))?;
    let mut end = CompareEnd::new(b"a");
    assert!(rt; end.put(0x61).is_ok());
    refused(&rt, end.put(0x61), (14, 7, 0, 1))?;
    let mut end = CompareEnd::new(b"ab");
    assert!(rt; end.put(0x61).is_ok());
    refused(&rt, end.close(), (16, 7, 0, 1))?;
    refused(&rt, end.close(), (6, 7, 0, 1))?;
    let mut end = CompareEnd::new(b"");
    assert!(rt; end.close().is_ok());
    refused(&rt, end.put(0x61), (5, 7, 0, 0))?;
    refused(&rt, end.close(), (5, 7, 0, 0))
}
