ghost use Rattle.std.specs.Prelude.{◌≡◌, ◌≤◌, ℕ, List, IfOk, IfErr};
ghost use Rattle.tree_model.specs.System.{IsSystem};
ghost use Rattle.tree_model.specs.Plans.{IsPlan};
ghost use Rattle.trace_file.specs.declared.event.Event.{Event as EventView};
ghost use Rattle.trace_file.specs.declared.fault.TraceFault.TheVariants.{NoMemory};
ghost use Rattle.auditor.specs.declared.counted.Counted.TheVariants.{Stolen as ByStolen};
ghost use Rattle.auditor.specs.Steal.{IsStealFinding, AreStealTallies, IsStolenOf};
ghost use Rattle.auditor.specs.inner.First.{steal_tally_of};
ghost use Rattle.auditor.specs.inner.Watches.{AreAtEnd, HaveWatched};

use crate::so_far::SoFar;
use crate::watches::{Settled, Watches};
use std::alloc::{AllocError, Global};
use trace_file::{Rows, TraceFault};
use tree_model::System;

/// What is found of the time that is stolen from VCPUs, in nanoseconds.
#[derive(Clone, Copy, Debug, PartialEq, Eq)]
pub enum StealFinding {
    /// No period is denied, and so many end by the end of the trace.
    Yes { periods: u64 },
    /// From the VCPU so much is stolen in the period that begins at `from`, more than the period
    /// has beyond its budget.
    Denied { vcpu: u32, from: u64, stolen: u64 },
}

/// What is counted of the periods of a VCPU that begin before the end of a trace.
#[derive(Clone, Copy, Debug, PartialEq, Eq)]
pub struct StealTally {
    /// How many begin before the end.
    pub begun: u64,
    /// In how many, of those that end by the end, no more is stolen than they have beyond the
    /// budget.
    pub kept: u64,
    /// In how many more is stolen.
    pub denied: u64,
    /// The greatest time that is stolen in one, in nanoseconds.
    pub most: Option<u64>,
}

/// What is found of stolen time, and what is counted of each part, in the order of the file. A part
/// that does not stand on a core has no periods.
#[derive(Drop)]
pub struct Stolen {
    pub finding: StealFinding,
    pub vcpus: Vec<StealTally>,
}

/// What is counted of a VCPU.
fn steal_tally(settled: Settled) -> StealTally
    requires { settled.ended_over ≤ settled.tally.judged }
    ensures { result ≡ steal_tally_of settled.tally settled.ended_over }
{
    StealTally {
        begun: settled.tally.begun,
        kept: settled.tally.judged - settled.ended_over,
        denied: settled.tally.over,
        most: settled.tally.most,
    }
}

/// What the watches of all VCPUs found and counted of stolen time, after the whole text.
pub fn stolen_of(
    alloc: Global,
    sys: &System,
    rows: &Rows,
    watches: &Watches,
) -> Result<Stolen, TraceFault>
    requires system { IsSystem sys.now }
    requires watched { (budgets : List ℕ) × (text : List ℕ) × IsPlan sys.now budgets
        × HaveWatched ByStolen sys.now budgets text rows.now watches.now }
    ensures stolen { (budgets : List ℕ) (text : List ℕ) → IsPlan sys.now budgets
        → HaveWatched ByStolen sys.now budgets text rows.now watches.now
        → IfOk result (λ t. IsStolenOf sys.now budgets text t.finding t.vcpus.items) }
    ensures fault { IfErr result (λ fault. fault ≡ NoMemory) }
{
    match steal_all(alloc, sys, rows, watches) {
        Ok(stolen) => Ok(stolen),
        Err(_) => Err(TraceFault::NoMemory),
    }
}

/// What is counted of each part and what is found of all, after all events.
fn steal_all(
    alloc: Global,
    sys: &System,
    rows: &Rows,
    watches: &Watches,
) -> Result<Stolen, AllocError>
    requires system { IsSystem sys.now }
    requires watched { (budgets : List ℕ) × (events : List EventView) × IsPlan sys.now budgets
        × AreAtEnd ByStolen sys.now budgets events rows.now watches.now }
    ensures { IfOk result (λ t. (budgets : List ℕ) (events : List EventView)
        → IsPlan sys.now budgets
        → AreAtEnd ByStolen sys.now budgets events rows.now watches.now
        → IsStealFinding sys.now budgets events t.finding
        × AreStealTallies sys.now budgets events t.vcpus.items) }
{
    let mut vcpus = Vec::new(alloc);
    let mut so_far = SoFar::new();
    for v in 0..sys.parts().len() {
        let settled = watches.settled(sys, rows, v as u32);
        vcpus.push(steal_tally(settled))?;
        so_far.add(v as u32, settled);
    }
    Ok(Stolen {
        finding: so_far.steal_finding(),
        vcpus,
    })
}
