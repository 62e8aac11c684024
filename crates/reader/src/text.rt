// A few bytes of text.
ghost use Rattle.std.specs.Prelude.{◌≡◌, ◌≤◌, length};

mod made;

// No `ArrayVec`: a line is copied with the text that it holds, as a refused byte leaves it as it was, and no copy may fail.
#[derive(Clone, Copy)]
pub struct Text {
    bytes: [u8; 4],
    len: usize,
    ghost size: { length bytes ≡ 4 },
    ghost fits: { len ≤ 4 },
}
