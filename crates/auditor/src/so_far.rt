ghost use Rattle.std.specs.Prelude.{◌≡◌};
ghost use Rattle.auditor.specs.inner.First.{told};

use crate::first::Found;
use crate::watches::Settled;
use crate::{Finding, StealFinding};
use vcpu_watch::{Breach, Broken};

/// What is found of the VCPUs so far: how many of their periods are judged, and the first of these
/// periods and of the others that is broken.
#[derive(Clone, Copy)]
pub struct SoFar {
    pub periods: u64,
    pub first: Option<Found>,
}

impl SoFar {
    ghost use Rattle.std.specs.Prelude.{◌≡◌, ◌+◌, ◌*◌, ◌≤◌, ℕ, List, None};
    ghost use Rattle.auditor.specs.declared.counted.Counted.{Counted as CountedView};
    ghost use Rattle.tree_model.specs.View.{SystemView};
    ghost use Rattle.trace_file.specs.declared.event.Event.{Event as EventView};
    ghost use Rattle.trace_file.specs.declared.event.TheConstants.{LAST_MOMENT};
    ghost use Rattle.auditor.specs.inner.First.{IsFirstOfVcpu, IsFirstOfAll, denied_of, told_of};

    /// Of no VCPU.
    pub fn new() -> SoFar
        ensures { result ≡ record { periods = 0; first = None } }
    {
        SoFar {
            periods: 0,
            first: None,
        }
    }

    /// With VCPU `v`, the next in the file.
    pub fn add(&mut self, v: u32, settled: Settled)
        requires place { v ≤ 512 }
        requires few { self.old.periods ≤ v * LAST_MOMENT }
        requires few_more { settled.tally.judged ≤ LAST_MOMENT }
        ensures periods { self.new.periods ≡ self.old.periods + settled.tally.judged }
        ensures first { (counted : CountedView) (sys : SystemView) (budgets : List ℕ)
            (events : List EventView) → IsFirstOfAll counted sys budgets events v self.old.first
            → IsFirstOfVcpu counted sys budgets events v settled.broken
            → IsFirstOfAll counted sys budgets events (v + 1) self.new.first }
    {
        self.periods += settled.tally.judged;
        self.first = Found::earlier(self.first, v, settled.broken);
    }

    /// As an audit tells it.
    pub fn finding(self) -> Finding
        ensures { result ≡ told_of self.periods self.first }
    {
        match self.first {
            Some(found) => told(found),
            None => Finding::Yes {
                periods: self.periods,
            },
        }
    }

    /// As it is told of stolen time.
    pub fn steal_finding(self) -> StealFinding
        ensures { result ≡ denied_of self.periods self.first }
    {
        let SoFar { periods, first } = self;
        match first {
            Some(found) => StealFinding::Denied {
                vcpu: found.vcpu,
                from: found.broken.from,
                stolen: found.broken.got,
            },
            None => StealFinding::Yes { periods },
        }
    }
}

/// A broken period as it is told.
fn told(found: Found) -> Finding
    ensures { result ≡ told found }
{
    let Found { vcpu, broken } = found;
    let Broken { breach, from, got } = broken;
    match breach {
        Breach::Short => Finding::Short { vcpu, from, got },
        Breach::Over => Finding::Over { vcpu, from, got },
    }
}
