// What became of orders and the finish behind them.
#[derive(Clone, Copy, Debug, PartialEq, Eq)]
pub struct Answers<F> {
    // the first refusal before the finish
    pub refused: Option<F>,
    pub finish: Result<u32, F>,
}
