// Whether a taker goes on, was closed, or was shut, and by which fault.
ghost use Rattle.std.specs.Prelude.{◌≡◌};
ghost use Rattle.fault.specs.Answers.{told, arisen};
ghost use Rattle.fault.specs.Faults.{own};
ghost use Rattle.orders.specs.Phases.{running, stands, settled, refused};

use fault::cause::Cause;
use fault::layer::Layer;
use fault::refusal::Arises;

#[derive(Clone, Copy, Debug, PartialEq, Eq)]
pub enum Phase<F> {
    Running,
    Closed,
    Shut(F),
}

impl<F> Phase<F> {
    // Whether orders are still taken; else the cause that each is refused with.
    pub fn running(&self) -> Result<(), Cause>
        ensures { result ≡ running self.now }
    {
        match self {
            Phase::Running => Ok(()),
            Phase::Closed => Err(Cause::AfterClose),
            Phase::Shut(_) => Err(Cause::AfterShut),
        }
    }
}

impl<F: Copy> Phase<F> {
    // The fault that shut it.
    pub fn standing(&self) -> Option<F>
        ensures { result ≡ stands self.now }
    {
        match *self {
            Phase::Shut(f) => Some(f),
            _ => None,
        }
    }

    // An answer from below, which shuts if it is a refusal.
    pub fn settle<T>(&mut self, answer: Result<T, F>) -> Result<T, F>
        ensures answered { result ≡ answer }
        ensures left { self.new ≡ settled answer self.old }
    {
        if let Err(f) = &answer {
            *self = Phase::Shut(*f);
        }
        answer
    }
}

impl<F: Arises + Copy> Phase<F> {
    // Refused once it was closed or shut.
    pub fn going(&self, layer: Layer, place: u32) -> Result<(), F>
        ensures { told F.Refusal.means result ≡ arisen layer place (running self.now) }
    {
        self.running().map_err(|cause| F::own(cause, layer, place))
    }

    // Refuses an order for a cause of the layer's own, which shuts, unless it leaves all as it was.
    pub fn refuse(&mut self, cause: Cause, layer: Layer, place: u32) -> F
        ensures fault { F.Refusal.means result ≡ own cause layer place }
        ensures left { self.new ≡ refused cause result self.old }
    {
        let f = F::own(cause, layer, place);
        if !cause.leaves() {
            *self = Phase::Shut(f);
        }
        f
    }
}
