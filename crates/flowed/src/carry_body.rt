// flowed carry.
ghost use Rattle.std.specs.Prelude.{◌≡◌, ◌+◌, ◌^◌, ◌≤◌, length, IfSome, IfNone};
ghost use Rattle.line_ends.specs.LineEnds.{leading_dots};

use crate::carry_options::CarryOptions;
use crate::files;
use crate::report::Report;
use crate::trouble::Trouble;
use carry::carried::carry;
use line_ends::count::count_leading_dots;
use line_ends::crlf::to_crlf;

// Room for the body with its dots doubled and the end mark; none where 64 bits cannot tell it.
fn room(body: &[u8]) -> Option<usize>
    ensures some { IfSome result (λ n. n ≡ length body.now + leading_dots 10 body.now + 3) }
    ensures none { IfNone result (2 ^ 64 ≤ length body.now + leading_dots 10 body.now + 3) }
{
    body.len()
        .checked_add(count_leading_dots(body))?
        .checked_add(3)
}

fn body_of(rt: &HostRuntime, options: &CarryOptions) -> Result<Vec<u8>, Trouble> {
    let bytes = files::read_all(rt, options.files.input.as_deref())?;
    if options.lf {
        Ok(to_crlf(rt.alloc(), bytes.as_slice())?)
    } else {
        Ok(bytes)
    }
}

pub fn run(rt: &HostRuntime, options: &CarryOptions) -> Result<(), Trouble> {
    let body = body_of(rt, options)?;
    let size = room(body.as_slice()).ok_or(Trouble::Memory)?;
    let memory = vec![in rt.alloc(); 0u8; size]?;
    let carried = carry(memory, body.as_slice());
    let report = Report::new(body.as_slice(), &carried);
    if !report.came_back() {
        eprint!(rt; "{report}")?;
        return Err(if options.lf {
            Trouble::Body
        } else {
            Trouble::BodyWithoutLf
        });
    }
    files::write_out(
        rt,
        options.files.wire.as_deref(),
        carried.wire.bytes(),
        &report,
    )
}
