// Content held against the signature separator, two dashes and a space.
ghost use Rattle.std.specs.Prelude.{◌≡◌};
ghost use Rattle.reader.specs.States.{sign_at};

#[derive(Clone, Copy)]
pub enum Sign {
    Signature,
    Beginning,
    Other,
}

pub(crate) fn sign_of(content: &[u8]) -> Sign
    ensures { result ≡ sign_at content.now }
{
    match content {
        [b'-', b'-', b' '] => Sign::Signature,
        [] | [b'-'] | [b'-', b'-'] => Sign::Beginning,
        _ => Sign::Other,
    }
}
