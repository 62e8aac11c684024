// LF line ends turned into CRLF; what stands as CRLF already stays.
ghost use Rattle.std.specs.Prelude.{◌≡◌, IfOk};
ghost use Rattle.line_ends.specs.LineEnds.{with_crlf};

use std::alloc::{AllocError, Global};

pub fn to_crlf(heap: Global, text: &[u8]) -> Result<Vec<u8>, AllocError>
    ensures { IfOk result (λ v. v.items ≡ with_crlf text.now) }
{
    let mut out = Vec::new(heap);
    let mut before = 0;
    for b in text {
        if *b == b'\n' && before != b'\r' {
            out.push(b'\r')?;
        }
        out.push(*b)?;
        before = *b;
    }
    Ok(out)
}
