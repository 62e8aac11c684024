// What a test sees of a refusal: the fault by its four numbers.
use fault::fault::Fault;
use fault::refusal::Refusal;
use std::process::Abort;
use std::test::Fail;

// Cause, layer, level and place.
pub type Numbers = (u8, u8, u32, u32);

pub fn numbers(f: Fault) -> Numbers {
    (f.cause.number(), f.layer.number(), f.level, f.place)
}

pub fn is_fault<F: Refusal + Drop>(rt: &impl Abort, f: F, seen: Numbers) -> Result<(), Fail> {
    assert!(rt; numbers(f.fault()) == seen);
    Ok(())
}

pub fn refused<X: Drop, F: Refusal + Drop>(
    rt: &impl Abort,
    r: Result<X, F>,
    seen: Numbers,
) -> Result<(), Fail> {
    match r {
        Ok(_) => Err(Fail::new("accepted")),
        Err(f) => is_fault(rt, f, seen),
    }
}
