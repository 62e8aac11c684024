// Two undoing stages, the second fed by the first. A pair is no layer: faults pass through it as they are.
ghost use Rattle.std.specs.Prelude.{◌≡◌, [], None};
ghost use Rattle.fault.specs.Answers.{told, via};
ghost use Rattle.fault.specs.Kinds.{own_fault};
ghost use Rattle.undo.specs.Undoing.{fed, handed, fed_next, pair_means};

use crate::stage::UndoStage;
use fault::own_fault::OwnFault;

#[derive(Drop)]
pub struct Pair<A, B> {
    first: A,
    second: B,
    // the refusal of either, which the pair repeats: asked for first, which a `?` over a Result would say no plainer
    standing: Option<OwnFault>,
}

impl<P: UndoStage, Q: UndoStage> Pair<P, Q> {
    pub fn new(first: P, second: Q) -> Self
        ensures { result ≡ record { first = first; second = second; standing = None } }
    {
        Pair {
            first,
            second,
            standing: None,
        }
    }
}

// A byte for the first, and what that gives for the second.
fn pass<P: UndoStage, Q: UndoStage>(
    first: &mut P,
    second: &mut Q,
    b: u8,
) -> Result<Option<u8>, OwnFault>
    ensures answered { told own_fault result ≡ handed ((P.UndoStage.means first.old).takes [] b) ((Q.UndoStage.means second.old).takes []) }
    ensures one { P.UndoStage.means first.new ≡ fed (P.UndoStage.means first.old) b }
    ensures two { Q.UndoStage.means second.new ≡ fed_next ((P.UndoStage.means first.old).takes [] b) (Q.UndoStage.means second.old) }
{
    match first.take(b)? {
        Some(c) => second.take(c),
        None => Ok(None),
    }
}

impl<P: UndoStage, Q: UndoStage> UndoStage for Pair<P, Q> {
    ghost means = { λ s. pair_means (via own_fault s.standing) (P.UndoStage.means s.first) (Q.UndoStage.means s.second) };

    fn take(&mut self, b: u8) -> Result<Option<u8>, OwnFault> {
        if let Some(f) = self.standing {
            return Err(f);
        }
        let given = pass(&mut self.first, &mut self.second, b);
        if let Err(f) = given {
            self.standing = Some(f);
        }
        given
    }

    fn may_stop(&self) -> Result<(), OwnFault> {
        if let Some(f) = self.standing {
            return Err(f);
        }
        self.first.may_stop()?;
        self.second.may_stop()
    }
}
