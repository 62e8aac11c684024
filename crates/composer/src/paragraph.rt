// The paragraph that is open, or was the last to be.
ghost use Rattle.std.specs.Prelude.{◌≤◌};
ghost use Rattle.std.specs.Option.{ForSome};
ghost use Rattle.composer.specs.Taking.{counted};

use crate::held_line::HeldLine;

mod text;

#[derive(Drop)]
pub struct Paragraph {
    // One memory serves each paragraph: inside the Option, all of it would be written anew at each open.
    held: HeldLine,
    // the text bytes that came, while a paragraph is open
    bytes: Option<u32>,
    ghost few: { ForSome bytes (λ n. counted held ≤ n) },
    ghost limit: { ForSome bytes (λ n. n ≤ 1000000) },
}
