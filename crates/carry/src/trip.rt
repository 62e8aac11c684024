// A way to the end and back: how many bytes came back, as they were sent, or why they did not.
use crate::stop::Stop;

#[derive(Clone, Copy, Debug, PartialEq, Eq)]
pub enum TripError<S, U, F> {
    // refused on the way to the end
    Refused(S),
    // stopped on the way back
    Stopped(Stop<U, F>),
}

pub type Trip<S, U, F> = Result<u32, TripError<S, U, F>>;
