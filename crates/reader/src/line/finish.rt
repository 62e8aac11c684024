// A finish, wherever in a line.
ghost use Rattle.std.specs.Prelude.{◌≡◌};
ghost use Rattle.reading.specs.Machine.{finish as finish_by};
ghost use Rattle.reader.specs.States.{state_of, ends_of};

use crate::line::LineState;
use fault::cause::Cause;

impl LineState {
    // Refused inside a line; whether an open paragraph is to be ended.
    pub(crate) fn finish(self) -> Result<bool, Cause>
        ensures { ends_of result ≡ finish_by (state_of self) }
    {
        match self {
            LineState::InMarks { open, marks: 0 } => Ok(open.is_some()),
            _ => Err(Cause::Incomplete),
        }
    }
}
