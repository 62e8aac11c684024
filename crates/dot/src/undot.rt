// The undoing of the dot stage.
ghost use Rattle.std.specs.Prelude.{◌≡◌, None};
ghost use Rattle.fault.specs.declared.layer.Layer.TheVariants.{DotUndoing as undoing_layer};
ghost use Rattle.fault.specs.Answers.{via};
ghost use Rattle.fault.specs.Kinds.{own_fault};
ghost use Rattle.undo.specs.Undoing.{held_by};
ghost use Rattle.dot.specs.declared.undo_state.UndoState.TheVariants.{Start as before_all};
ghost use Rattle.dot.specs.Undot.{undot, undotting, in_line};

use crate::undo_state::UndoState;
use fault::cause::Cause;
use fault::layer::Layer;
use fault::own_fault::OwnFault;
use undo::stage::UndoStage;

// A byte of a line.
fn line_byte(b: u8) -> Result<(Option<u8>, UndoState), Cause>
    ensures { result ≡ in_line b }
{
    match b {
        0x0A => Err(Cause::Unpaired),
        0x0D => Ok((Some(b), UndoState::AfterCr)),
        _ => Ok((Some(b), UndoState::Within)),
    }
}

// What a byte gives and where it leads.
fn step(state: UndoState, b: u8) -> Result<(Option<u8>, UndoState), Cause>
    ensures { result ≡ undot state b }
{
    match state {
        UndoState::Start if b == 0x2E => Ok((None, UndoState::Mark)),
        UndoState::Mark if b == 0x0D => Ok((None, UndoState::MarkCr)),
        UndoState::Start | UndoState::Within | UndoState::Mark => line_byte(b),
        UndoState::AfterCr if b == 0x0A => Ok((Some(b), UndoState::Start)),
        UndoState::MarkCr if b == 0x0A => Ok((None, UndoState::Ended)),
        UndoState::AfterCr | UndoState::MarkCr => Err(Cause::Unpaired),
        UndoState::Ended if b == 0x0A => Err(Cause::Unpaired),
        UndoState::Ended => Err(Cause::AfterEndMark),
    }
}

#[derive(Clone, Copy)]
pub struct DotUndo {
    state: UndoState,
    place: u32,
    // the refusal, which it repeats: asked for first, which a `?` over a Result would say no plainer
    standing: Option<OwnFault>,
}

impl DotUndo {
    pub fn new() -> Self
        ensures { result ≡ record { state = before_all; place = 0; standing = None } }
    {
        DotUndo {
            state: UndoState::Start,
            place: 0,
            standing: None,
        }
    }

    fn fault(&self, cause: Cause) -> OwnFault
        ensures { result ≡ record { cause = cause; layer = undoing_layer; place = self.now.place } }
    {
        OwnFault {
            cause,
            layer: Layer::DotUndoing,
            place: self.place,
        }
    }
}

impl UndoStage for DotUndo {
    ghost means = { λ s. held_by (via own_fault s.standing) (undotting s.place s.state) };

    fn take(&mut self, b: u8) -> Result<Option<u8>, OwnFault> {
        if let Some(f) = self.standing {
            return Err(f);
        }
        match step(self.state, b) {
            Ok((given, state)) => {
                self.state = state;
                self.place = self.place.saturating_add(1);
                Ok(given)
            }
            Err(cause) => {
                let f = self.fault(cause);
                self.standing = Some(f);
                Err(f)
            }
        }
    }

    fn may_stop(&self) -> Result<(), OwnFault> {
        if let Some(f) = self.standing {
            return Err(f);
        }
        match self.state {
            UndoState::Ended => Ok(()),
            _ => Err(self.fault(Cause::Incomplete)),
        }
    }
}
