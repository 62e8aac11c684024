// Where a stage stands in a line.
#[derive(Clone, Copy, Debug, PartialEq, Eq)]
pub enum LineState {
    Start,
    Within,
    AfterCr,
}
