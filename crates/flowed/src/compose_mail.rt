// flowed compose.
ghost use Rattle.std.specs.Prelude.{◌≡◌, ◌+◌, ◌*◌, ◌^◌, ◌≤◌, length, IfSome, IfNone, IfOk, IfErr};
ghost use Rattle.flowed.specs.declared.trouble.Trouble.TheVariants.{Memory as no_memory};
ghost use Rattle.flowed.specs.Compose.{ComposedIn, Mailed};

use crate::compose_options::ComposeOptions;
use crate::files;
use crate::mail_report::MailReport;
use crate::trouble::Trouble;
use compose_text::composed::{Composed, compose};
use dot::dot::Dot;
use ends::memory::MemoryEnd;

// Twice the text, and some: enough for most mails; none where 64 bits cannot tell it.
fn first_size(text: &[u8]) -> Option<usize>
    ensures some { IfSome result (λ n. n ≡ length text.now * 2 + 1024) }
    ensures none { IfNone result (2 ^ 64 ≤ length text.now * 2 + 1024) }
{
    text.len().checked_mul(2)?.checked_add(1024)
}

// Through the dot stage or without it.
fn compose_into(memory: Vec<u8>, options: &ComposeOptions, text: &[u8]) -> Composed
    ensures { ComposedIn memory options.now.dot options.now.width options.now.depths text.now result }
{
    if options.dot {
        compose::<Dot<MemoryEnd>>(memory, options.width, text, options.depths)
    } else {
        compose::<MemoryEnd>(memory, options.width, text, options.depths)
    }
}

// Into memory that is doubled until it holds the mail; fails for want of memory alone.
fn compose_whole(
    rt: &HostRuntime,
    options: &ComposeOptions,
    text: &[u8],
) -> Result<(Composed, MailReport), Trouble>
    ensures failed { IfErr result (λ e. e ≡ no_memory) }
    ensures mailed { IfOk result (λ p. Mailed options.now.dot options.now.width options.now.depths text.now p.0 p.1) }
{
    let mut size = first_size(text).ok_or(Trouble::Memory)?;
    loop {
        let memory = vec![in rt.alloc(); 0u8; size]?;
        let composed = compose_into(memory, options, text);
        let wire = composed.wire.bytes();
        let report = MailReport::new(composed.outcome, wire, options.dot);
        if !report.lacks_memory() {
            return Ok((composed, report));
        }
        size = size.checked_mul(2).ok_or(Trouble::Memory)?;
    }
}

pub fn run(rt: &HostRuntime, options: &ComposeOptions) -> Result<(), Trouble> {
    let text = files::read_all(rt, options.files.input.as_deref())?;
    let (composed, report) = compose_whole(rt, options, text.as_slice())?;
    if !report.is_whole() {
        eprint!(rt; "{report}")?;
        return Err(Trouble::Mail);
    }
    let name = options.files.wire.as_deref().or(Some("-"));
    files::write_out(rt, name, composed.wire.bytes(), &report)
}
