// The composer: paragraphs go down as wire lines.
ghost use Rattle.std.specs.Prelude.{◌≡◌, ◌≤◌, true};
ghost use Rattle.fault.specs.Kinds.{layer_fault};
ghost use Rattle.orders.specs.Phases.{phased};
ghost use Rattle.composer.specs.Mails.{Composes};
ghost use Rattle.composer.specs.Composers.{means_of, new_means, born, good_start};

use crate::paragraph::Paragraph;
use fault::cause::Cause;
use fault::layer::Layer;
use fault::layer_fault::LayerFault;
use fault::refusal::Arises;
use orders::phase::Phase;
use sink::byte_sink::ByteSink;

mod refusals;
pub mod taking;

#[derive(Drop)]
pub struct Composer<S> {
    below: S,
    // how many paragraphs were opened
    opened: u32,
    paragraph: Paragraph,
    phase: Phase<LayerFault>,
    // how many text bytes were accepted
    place: u32,
}

// Born shut if the width is not from 20 to 998, or the sink below is not fresh.
fn first_phase(width: u32, fresh: bool) -> Phase<LayerFault>
    ensures { phased layer_fault result ≡ born (good_start width fresh) }
{
    if (20..=998).contains(&width) && fresh {
        Phase::Running
    } else {
        Phase::Shut(LayerFault::own(Cause::BadStart, Layer::Composer, 0))
    }
}

impl<S: ByteSink> Composer<S> {
    // A composer of a width, before the first paragraph.
    pub fn new(below: S, width: u32) -> Self
        ensures means { means_of S.ByteSink.means result ≡ new_means width (S.ByteSink.means below) }
        ensures below { result.below ≡ below }
        ensures composes { 20 ≤ width → width ≤ 998 → (S.ByteSink.means below).fresh ≡ true → Composes width (S.ByteSink.means below) (means_of S.ByteSink.means result) }
    {
        let phase = first_phase(width, below.is_fresh());
        Composer {
            below,
            opened: 0,
            paragraph: Paragraph::new(width.min(998) as usize),
            phase,
            place: 0,
        }
    }

    // The sink below, to look at. A trait over stages and composers would be more text than it and the next are.
    pub fn below(&self) -> &S
        ensures { result.now ≡ self.now.below }
    {
        &self.below
    }

    // The sink below, back.
    pub fn into_below(self) -> S
        ensures { result ≡ self.below }
    {
        self.below
    }
}
