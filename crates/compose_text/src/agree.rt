// Two composers of one width, over sinks of any two types.
ghost use Rattle.compose_text.specs.Agree.{ComposersAgree};

use sink::byte_sink::ByteSink;

// Over matched sinks the same orders are answered alike and leave equal feet, wherever the text was cut.
pub fn composers_agree<X: ByteSink, Y: ByteSink>(one: &X, other: &Y)
    ensures { ComposersAgree (X.ByteSink.means one.now) (Y.ByteSink.means other.now) }
{
    let _ = one;
    let _ = other;
}
