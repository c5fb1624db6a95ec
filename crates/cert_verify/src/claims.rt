ghost use Rattle.std.specs.Prelude.{◌≡◌, ◌↔◌, ◌-◌, ◌^◌, ◌<◌, ◌≤◌, true, false, IsTrue, IfOk, IfErr, MatchResult, length};
ghost use Rattle.slot_model.specs.declared.task.TheConstants.{LIMIT};
ghost use Rattle.slot_model.specs.Task.{sporadic_tasks};
ghost use Rattle.slot_model.specs.Order.{ranks_above};
ghost use Rattle.cert_verify.specs.Proves.{NoWitness, IsChainOf, IsShortWindow, ShowsPass, ShowsLeast, IsShown};
ghost use Rattle.cert_verify.specs.Flaws.{NodeFlaw};

use crate::Flaw;
use crate::points::{is_chain, is_cover};
use edf_demand::{DemandLevel, horizon};
use edf_test::is_short;
use fp_request::RankedLevel;
use fp_test::is_hit;
use slot_model::{LIMIT, Sched, Task};
use supply_bound::{Periodic, Supply};
use tree_model::Node;
use window_terms::Term;

/// Whether all that a node claims holds for its tasks and its supply, or the first flaw. Its level
/// is gathered once, in `room`.
pub fn check_claims<S: Supply>(
    room: &mut [Term],
    sched: Sched,
    tasks: &[Task],
    s: &S,
    node: &Node,
) -> Result<(), Flaw>
    requires few { length tasks.now < 2 ^ 32 }
    requires in_limit { node.now.period ≤ LIMIT }
    requires some_slots { node.now.computed ≡ true → 1 ≤ node.now.budget }
    requires in_period { node.now.computed ≡ true → node.now.budget ≤ node.now.period }
    ensures shown { IfOk result
        (λ _. IsShown sched (sporadic_tasks tasks.now) (S.bound s.now)
        (S.cycle_of s.now) node.now) }
    ensures flaw { IfErr result
        (λ flaw.
        NodeFlaw sched (sporadic_tasks tasks.now) (S.bound s.now)
        (S.cycle_of s.now) node.now flaw) }
{
    match sched {
        Sched::Edf => {
            let level = DemandLevel::gather(tasks, room);
            check_points(&level, s, node)?;
            check_least(node, shows_least_window(&level, node))
        }
        _ => {
            let level = RankedLevel::gather(sched, tasks, room);
            check_hits(&level, s, node)?;
            check_least(node, shows_least_task(&level, node))
        }
    }
}

/// The points of a node under earliest deadline first.
fn check_points<S: Supply>(level: &DemandLevel, s: &S, node: &Node) -> Result<(), Flaw>
    ensures shown { let T = sporadic_tasks level.now.tasks.now in
        IfOk result (λ _. ShowsPass Sched.Edf T (S.bound s.now) (S.cycle_of s.now) node.now) }
    ensures flaw { let T = sporadic_tasks level.now.tasks.now in
        IfErr result
        (λ flaw. NodeFlaw Sched.Edf T (S.bound s.now) (S.cycle_of s.now) node.now flaw) }
{
    let Some(h) = horizon(level.tasks, s.cycle()) else {
        return Err(Flaw::Wide(node.place));
    };
    if node.hits.is_empty() && is_cover(level, s, h, &node.points) {
        Ok(())
    } else {
        Err(Flaw::Cover(node.place))
    }
}

/// The hits of a node under a fixed rank.
fn check_hits<S: Supply>(level: &RankedLevel, s: &S, node: &Node) -> Result<(), Flaw>
    requires { length level.now.tasks.now < 2 ^ 32 }
    ensures shown { let T = sporadic_tasks level.now.tasks.now in
        IfOk result
        (λ _. ShowsPass level.now.sched T (S.bound s.now) (S.cycle_of s.now) node.now) }
    ensures flaw { let T = sporadic_tasks level.now.tasks.now in
        IfErr result
        (λ flaw. NodeFlaw level.now.sched T (S.bound s.now) (S.cycle_of s.now) node.now flaw) }
{
    if node.hits.len() != level.tasks.len() || !node.points.is_empty() {
        return Err(Flaw::Hit(node.place, 0));
    }
    for i in 0..level.tasks.len() as u32 {
        let hit = node.hits[i as usize];
        if !is_hit(&level.task(i), s, hit) {
            return Err(Flaw::Hit(node.place, i));
        }
    }
    Ok(())
}

/// The flaw of a node whose budget is not shown to be the least.
fn check_least(node: &Node, shown: bool) -> Result<(), Flaw>
    ensures { MatchResult result
        (λ _. shown ≡ true)
        (λ flaw. (shown ≡ false) × (flaw ≡ Flaw.Least node.now.place)) }
{
    if shown {
        Ok(())
    } else {
        Err(Flaw::Least(node.place))
    }
}

/// Whether a computed budget is shown to be the least by a window, and any other has no witness.
fn shows_least_window(level: &DemandLevel, node: &Node) -> bool
    requires in_limit { node.now.period ≤ LIMIT }
    requires some_slots { node.now.computed ≡ true → 1 ≤ node.now.budget }
    requires in_period { node.now.computed ≡ true → node.now.budget ≤ node.now.period }
    ensures { IsTrue result ↔
        ShowsLeast node.now.computed Sched.Edf (sporadic_tasks level.now.tasks.now) node.now }
{
    if !node.computed {
        return has_no_witness(node);
    }
    shows_window(level, &one_slot_less(node), node)
}

fn shows_window<S: Supply>(level: &DemandLevel, less: &S, node: &Node) -> bool
    ensures { let T = sporadic_tasks level.now.tasks.now in
        IsTrue result ↔ IsShortWindow T (S.bound less.now) node.now }
{
    match node.witness {
        Some(window) => node.falls.is_empty() && is_short(level, less, window),
        None => false,
    }
}

/// The same by a task without a hit.
fn shows_least_task(level: &RankedLevel, node: &Node) -> bool
    requires few { length level.now.tasks.now < 2 ^ 32 }
    requires in_limit { node.now.period ≤ LIMIT }
    requires some_slots { node.now.computed ≡ true → 1 ≤ node.now.budget }
    requires in_period { node.now.computed ≡ true → node.now.budget ≤ node.now.period }
    ensures { IsTrue result ↔
        ShowsLeast node.now.computed level.now.sched (sporadic_tasks level.now.tasks.now) node.now }
{
    if !node.computed {
        return has_no_witness(node);
    }
    shows_task(level, &one_slot_less(node), node)
}

fn shows_task<S: Supply>(level: &RankedLevel, less: &S, node: &Node) -> bool
    requires { length level.now.tasks.now < 2 ^ 32 }
    ensures { let T = sporadic_tasks level.now.tasks.now in
        IsTrue result ↔ IsChainOf (ranks_above level.now.sched T) T (S.bound less.now) node.now }
{
    let Some(task) = node.witness else {
        return false;
    };
    if task >= level.tasks.len() as u128 {
        return false;
    }
    is_chain(&level.task(task as u32), less, &node.falls)
}

fn has_no_witness(node: &Node) -> bool
    ensures { IsTrue result ↔ NoWitness node.now }
{
    node.witness.is_none() && node.falls.is_empty()
}

/// The supply of one slot less than a computed budget has.
fn one_slot_less(node: &Node) -> Periodic
    requires in_limit { node.now.period ≤ LIMIT }
    requires some_slots { 1 ≤ node.now.budget }
    requires in_period { node.now.budget ≤ node.now.period }
    ensures { (result.period ≡ node.now.period) × (result.budget ≡ node.now.budget - 1) }
{
    Periodic {
        period: node.period,
        budget: node.budget - 1,
    }
}
