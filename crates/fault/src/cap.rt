// A place, a level or a length as it is told.
ghost use Rattle.std.specs.Prelude.{◌≡◌, min};
ghost use Rattle.fault.specs.Faults.{most};

pub fn capped(n: usize) -> u32
    ensures { result ≡ min n most }
{
    u32::try_from(n).unwrap_or(u32::MAX)
}
