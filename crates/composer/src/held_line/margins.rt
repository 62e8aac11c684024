// How the lines of a paragraph are set: behind how many quote marks, and to which width.
ghost use Rattle.std.specs.Prelude.{◌≡◌, ◌≤◌};
ghost use Rattle.folding.specs.WireLine.{stuffed_by, lead_by};

#[derive(Clone, Copy)]
pub struct Margins {
    pub(crate) depth: usize,
    pub(crate) width: usize,
    ghost shallow: { depth ≤ 100 },
    ghost narrow: { width ≤ 998 },
}

// Whether a piece that begins with the byte is stuffed.
pub(crate) fn is_stuffed(depth: usize, first: u8) -> bool
    ensures { result ≡ stuffed_by depth first }
{
    depth >= 1 || first == 0x20 || first == 0x3E
}

impl Margins {
    // How many bytes stand before a piece that begins with the byte: the quote marks and the stuffing.
    pub(crate) fn lead(&self, first: u8) -> usize
        ensures value { result ≡ lead_by (stuffed_by self.now.depth first) self.now.depth }
        ensures few { result ≤ 101 }
    {
        let depth = self.depth;
        if is_stuffed(depth, first) {
            depth + 1
        } else {
            depth
        }
    }
}
