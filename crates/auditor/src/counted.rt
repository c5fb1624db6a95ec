ghost use Rattle.std.specs.Prelude.{◌≡◌};
ghost use Rattle.auditor.specs.inner.Counting.{shown};

use vcpu_watch::State;

/// Which time of a VCPU is counted in its periods.
#[derive(Clone, Copy, Debug, PartialEq, Eq)]
pub enum Counted {
    /// The time at which it has its core, as an audit counts it.
    Core,
    /// The time that is stolen from it: at which it is not blocked and does not have its core.
    Stolen,
}

impl Counted {
    /// How a VCPU that stands so is shown to its watch.
    #[inline(always)]
    pub fn shown(self, state: State) -> State
        ensures { result ≡ shown self state }
    {
        match self {
            Counted::Core => state,
            Counted::Stolen => State {
                has_core: !state.is_blocked && !state.has_core,
                is_blocked: false,
            },
        }
    }
}
