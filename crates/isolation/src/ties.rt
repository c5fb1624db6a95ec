ghost use Rattle.std.specs.Prelude.{◌≡◌};
ghost use Rattle.isolation.specs.inner.Ties.{tie_of};

/// How ties are broken between periods that end at once: in any way, or for the VCPU that stands
/// first in the file.
#[derive(Clone, Copy, Debug, PartialEq, Eq)]
pub enum Ties {
    Open,
    InFileOrder,
}

impl Ties {
    /// By how many slots a period of `u` must end before one of `v`, to go before it.
    pub fn slots(self, v: usize, u: usize) -> u64
        ensures { result ≡ tie_of self v u }
    {
        match self {
            Ties::Open => 0,
            Ties::InFileOrder if v < u => 1,
            Ties::InFileOrder => 0,
        }
    }
}
