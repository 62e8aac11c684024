// Where the undoing stands: in a line, in what may be an end mark, or behind it.
#[derive(Clone, Copy, Debug, PartialEq, Eq)]
pub enum UndoState {
    Start,
    Within,
    AfterCr,
    // behind a 2E at a line beginning
    Mark,
    // behind 2E 0D at a line beginning
    MarkCr,
    Ended,
}
