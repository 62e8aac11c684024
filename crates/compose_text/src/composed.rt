// The lines of a text as paragraphs through a new composer into memory.
ghost use Rattle.std.specs.Prelude.{◌≡◌, ℕ};
ghost use Rattle.composer.specs.Composers.{means_of};
ghost use Rattle.composer.specs.Keeping.{Keeps};
ghost use Rattle.ends.specs.Buffers.{taken, KeptBehind};
ghost use Rattle.plain_text.specs.Paragraphs.{paragraphs_of};
ghost use Rattle.plain_text.specs.Grows.{GrowsSome, GrowsBy};
ghost use Rattle.compose_text.specs.Composed.{Written, FootTold, ComposedSo, ComposedAs};

use composer::composer::Composer;
use ends::buffer::Buffer;
use ends::pile::Pile;
use fault::layer_fault::LayerFault;
use plain_text::line::Depths;
use plain_text::lines::{Handed, hand_lines};
use sink::byte_sink::ByteSink;
use taker::paragraph_taker::ParagraphTaker;

// What became of a text's lines, and of the finish behind them; none where a line was refused. Kept side by side, since what is
// reported of a refused line is how far the others went too.
#[derive(Clone, Copy)]
pub struct Outcome {
    pub handed: Handed<LayerFault>,
    pub finish: Option<Result<u32, LayerFault>>,
}

// All lines, and then the finish.
fn write<S: ByteSink>(composer: &mut Composer<S>, text: &[u8], depths: Depths) -> Outcome
    ensures grown { GrowsSome (means_of S.ByteSink.means composer.old) (means_of S.ByteSink.means composer.new) }
    ensures written { GrowsBy (means_of S.ByteSink.means composer.old) (means_of S.ByteSink.means composer.new) (Written (paragraphs_of depths text.now) result) }
    ensures told { FootTold result.finish (means_of S.ByteSink.means composer.new).foot }
    ensures kept { Keeps (S.ByteSink.means composer.old.below).foot (S.ByteSink.means composer.new.below).foot (S.ByteSink.memory composer.old.below) (S.ByteSink.memory composer.new.below) }
{
    let handed = hand_lines(composer, text, depths);
    if handed.refused.is_some() {
        return Outcome {
            handed,
            finish: None,
        };
    }
    let finish = Some(composer.finish());
    Outcome { handed, finish }
}

#[derive(Drop)]
pub struct Composed {
    // the wire bytes, in front of the memory
    pub wire: Buffer,
    pub outcome: Outcome,
}

// Into memory, through a pile that is made over it.
pub fn compose<S: Pile>(memory: Vec<u8>, width: u32, text: &[u8], depths: Depths) -> Composed
    ensures wire { ComposedSo width (S.Pile.over memory) (taken result.wire) }
    ensures text { ComposedAs width (S.Pile.over memory) (paragraphs_of depths text.now) result.outcome (taken result.wire) }
    ensures kept { KeptBehind memory result.wire }
{
    let mut composer = Composer::new(S::over(memory), width);
    let outcome = write(&mut composer, text, depths);
    let wire = composer.into_below().into_buffer();
    Composed { wire, outcome }
}
