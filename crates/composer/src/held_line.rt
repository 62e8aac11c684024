// What is held of an open paragraph between two text bytes: the last line so far, and the spaces behind it.
ghost use Rattle.std.specs.Prelude.{◌+◌, ◌≤◌, length};
ghost use Rattle.folding.specs.WireLine.{width as line_width};
ghost use Rattle.folding.specs.Held.{Valid};
ghost use Rattle.composer.specs.Parts.{held_by};

use crate::held_line::margins::Margins;
use arrayvec::ArrayVec;

mod breaks;
mod line;
pub(crate) mod margins;
mod sending;

#[derive(Drop)]
pub struct HeldLine {
    // the line, through its last byte that is no space
    line: ArrayVec<u8, 998>,
    // the length of its longest piece that ends at a break
    last_break: Option<usize>,
    // the spaces behind the line, which are text only once another byte follows
    spaces: usize,
    // how many lines of the paragraph were sent
    lines: u32,
    margins: Margins,
    ghost few: { lines + (length line.items + spaces) ≤ 1000000 },
    ghost short: { line_width margins.depth line.items ≤ 998 },
    ghost valid: { ∥ Valid margins.depth margins.width (held_by line.items last_break spaces) ∥₁ },
}
