ghost use Rattle.std.specs.Prelude.{◌≡◌, suc, ◌+◌, ◌*◌, ◌/◌, ◌<◌, ◌≤◌, true, length, MatchOption};
ghost use Rattle.slot_model.specs.declared.task.TheConstants.{LIMIT};
ghost use Rattle.tree_model.specs.declared.place.Place.TheVariants.{Core};
ghost use Rattle.tree_model.specs.Plans.{IsPlan};
ghost use Rattle.tree_model.specs.System.{IsSystem, part_at};
ghost use Rattle.tree_model.specs.Tree.{is_child, budget_at};
ghost use Rattle.rtds_model.specs.Demand.{deferrable_demand};
ghost use Rattle.isolation.specs.Demand.{asked_of, asked, IsLeastBy, AsksTooMuch};
ghost use Rattle.isolation.specs.inner.Ties.{tie_of};
ghost use Rattle.isolation.specs.inner.Neighbours.{AreNeighbours};
ghost use Rattle.isolation.specs.inner.Whole.{whole_asked_of, whole_asked};

use crate::neighbours::Neighbours;
use crate::ties::Ties;
use tree_model::{MAX_PARTS, Plan, System};

/// What is asked of some last slots of a period, and what it comes to with more slots once each
/// server has its whole budget in the period in which they begin.
#[derive(Clone, Copy)]
struct Asked {
    slots: u64,
    whole: u64,
}

/// The least number of slots at the end of a period of VCPU `v` that is enough for it and all
/// others of its core; none where its whole period is not. It goes from each number that is too few
/// to what is asked with these whole budgets: up to there one of them takes each slot more.
pub fn least_window(
    sys: &System,
    plan: &Plan,
    neighbours: &Neighbours,
    core: u32,
    v: usize,
    ties: Ties,
) -> Option<u64>
    requires plan { IsPlan sys.now plan.now }
    requires neighbours { AreNeighbours sys.now neighbours.now }
    requires is_part { v < length sys.now.parts }
    requires on_core { is_child sys.now (Core core) v ≡ true }
    ensures least { MatchOption result
        (AsksTooMuch (tie_of ties) sys.now plan.now core v)
        (IsLeastBy (tie_of ties) sys.now plan.now core v) }
    ensures system { IsSystem sys.now }
{
    let period = sys.parts()[v].period();
    let mut last = plan.budgets()[v];
    while last <= period {
        let needed = asked_in(sys, plan, neighbours, core, v, ties, last);
        if needed.slots <= last {
            return Some(last);
        }
        last = needed.whole;
    }
    None
}

/// What the VCPUs of the core ask of the last `t` slots of a period of `v`.
fn asked_in(
    sys: &System,
    plan: &Plan,
    neighbours: &Neighbours,
    core: u32,
    v: usize,
    ties: Ties,
    t: u64,
) -> Asked
    requires plan { IsPlan sys.now plan.now }
    requires neighbours { AreNeighbours sys.now neighbours.now }
    requires is_core { core < length sys.now.cores }
    requires in_limit { t ≤ LIMIT }
    ensures exact { result.slots ≡ asked (tie_of ties) sys.now plan.now core v t }
    ensures whole { result.whole ≡ whole_asked (tie_of ties) sys.now plan.now core v t }
{
    prove!(sys.parts().len() <= MAX_PARTS);
    let mut slots: u64 = 0;
    let mut whole: u64 = 0;
    let mut u = neighbours.first[core as usize];
    while u < sys.parts().len() {
        let one = asked_by(sys, plan, v, ties, t, u);
        slots += one.slots;
        whole += one.whole;
        u = neighbours.next[u];
    }
    Asked { slots, whole }
}

/// What VCPU `u` of the core asks of them.
fn asked_by(sys: &System, plan: &Plan, v: usize, ties: Ties, t: u64, u: usize) -> Asked
    requires plan { IsPlan sys.now plan.now }
    requires is_part { u < length sys.now.parts }
    requires in_limit { t ≤ LIMIT }
    ensures exact { result.slots
        ≡ asked_of (tie_of ties) v u (part_at sys.now u).period (budget_at plan.now u) t }
    ensures whole { result.whole
        ≡ whole_asked_of (tie_of ties) v u (part_at sys.now u).period (budget_at plan.now u) t }
    ensures in_limit { result.slots ≤ LIMIT }
    ensures in_two { result.whole ≤ 2 * LIMIT }
{
    let part = &sys.parts()[u];
    let budget = plan.budgets()[u];
    if u == v {
        return Asked {
            slots: budget,
            whole: budget,
        };
    }
    taken_of(part.period(), budget, t.saturating_sub(ties.slots(v, u)))
}

/// The most that a server takes of the last `t` slots before one of its periods ends.
fn taken_of(period: u64, budget: u64, t: u64) -> Asked
    requires some { 1 ≤ budget }
    requires in_period { budget ≤ period }
    requires in_limit { t ≤ LIMIT }
    ensures exact { result.slots ≡ deferrable_demand period budget t }
    ensures whole { result.whole ≡ suc (t / period) * budget }
    ensures few { result.slots ≤ t }
    ensures few_more { result.whole ≤ t + budget }
{
    Asked {
        slots: t / period * budget + budget.min(t % period),
        whole: (t / period + 1) * budget,
    }
}
