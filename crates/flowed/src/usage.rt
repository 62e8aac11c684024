// A command line that is wrong, as it is told.
ghost use Rattle.flowed.specs.Usage.{ToldAs};

use crate::trouble::Trouble;
use std::alloc::Global;
use std::fmt;

pub fn usage<D: fmt::Display + Drop>(heap: Global, what: D) -> Trouble
    ensures { ToldAs (D.Display.output what) result }
{
    what.to_string(heap).map_or(Trouble::Memory, Trouble::Usage)
}
