ghost use Rattle.std.specs.Prelude.{◌≡◌, ◌≢◌, ℕ, suc, ◌<◌, ◌≤◌, true, List, length, slice_set, IfOk, IfErr, MatchResult};
ghost use Rattle.tree_model.specs.declared.system.TheConstants.{MAX_PARTS};
ghost use Rattle.tree_model.specs.System.{IsSystem, is_computed_leaf, part_at};
ghost use Rattle.tree_model.specs.Tree.{NoLoss};
ghost use Rattle.tree_model.specs.Admission.{NodePasses, AssignedFrom, Assigned, Admitted, FirstRefusal};
ghost use Rattle.tree_model.specs.Plans.{IsPlan};
ghost use Rattle.compose_tree.specs.Keeping.{Keeping};
ghost use Rattle.compose_tree.specs.Shorts.{AreShorts, IsShortOf};
ghost use Rattle.compose_tree.specs.inner.Shorts.{ShortsFrom};
ghost use Rattle.compose_tree.specs.Steps.{RefusesAt, PartsPassFrom};
ghost use Rattle.compose_tree.specs.inner.Steps.{CoresPassTo};
ghost use Rattle.compose_tree.specs.Truth.{IsTight, RefusalHolds};

use crate::nodes::{Asked, Settled, part_budget, test_node};
use slot_model::{Short, Task};
use std::alloc::Global;
use tree_model::{MAX_PARTS, Place, Plan, Refusal, System, node_supply, sched_of, write_tasks};

/// The budgets of all parts, in slots, and of each part whose budget was asked with its edge what
/// is short first with one slot less.
#[derive(Drop)]
pub struct Composed {
    pub plan: Plan,
    pub shorts: Vec<Option<Short>>,
}

/// The budgets of all parts, in slots: the given ones and the least ones that pass. Parts are
/// visited from the last to the first, and then the cores in order; the first that does not pass
/// refuses.
pub fn compose(alloc: Global, sys: &System) -> Result<Plan, Refusal>
    ensures plan { IfOk result (λ plan. Admitted sys.now plan) }
    ensures refusal { IfErr result (λ r. r ≢ Refusal.NoMemory → FirstRefusal sys.now r) }
    // where budgets admit the system, they are the plan
    ensures complete { (budgets : List ℕ) → Admitted sys.now budgets →
        MatchResult result (λ plan. plan ≡ budgets) (λ r. r ≡ Refusal.NoMemory) }
    ensures in_period { IfOk result (λ plan. IsPlan sys.now plan) }
    // what a plan and a refusal say of supplies and releases
    ensures no_loss { IfOk result (λ plan. NoLoss sys.now plan) }
    ensures each_node { IfOk result (λ plan. Keeping sys.now plan) }
    ensures tight { IfOk result (λ plan. IsTight sys.now plan) }
    ensures holds { IfErr result (λ r. RefusalHolds sys.now r) }
{
    match compose_by(alloc, sys, Asked::Least) {
        Ok(composed) => Ok(composed.plan),
        Err(refusal) => Err(refusal),
    }
}

/// The budgets as `compose` answers them, and what is short first of each leaf whose budget is
/// computed with one slot less, which is asked while the leaf's level is at hand.
pub fn compose_edges(alloc: Global, sys: &System) -> Result<Composed, Refusal>
    ensures plan { IfOk result (λ composed. Admitted sys.now composed.plan) }
    ensures shorts { IfOk result
        (λ composed. AreShorts sys.now composed.plan composed.shorts.items) }
    ensures refusal { IfErr result (λ r. r ≢ Refusal.NoMemory → FirstRefusal sys.now r) }
    ensures in_period { IfOk result (λ composed. IsPlan sys.now composed.plan) }
{
    compose_by(alloc, sys, Asked::Edge)
}

/// The same, where of each leaf whose budget is computed this is asked.
fn compose_by(alloc: Global, sys: &System, asked: Asked) -> Result<Composed, Refusal>
    ensures system { IsSystem sys.now }
    ensures plan { IfOk result (λ composed. Admitted sys.now composed.plan) }
    ensures shorts { asked ≡ Asked.Edge → IfOk result
        (λ composed. AreShorts sys.now composed.plan composed.shorts.items) }
    ensures refusal { IfErr result (λ r. r ≢ Refusal.NoMemory → FirstRefusal sys.now r) }
    ensures in_period { IfOk result (λ composed. IsPlan sys.now composed.plan) }
{
    let (mut budgets, mut room) = rooms(alloc, sys)?;
    let mut shorts = room_for_shorts(alloc, sys, asked)?;
    settle_parts(sys, &mut budgets, &mut shorts, &mut room)?;
    test_cores(sys, &budgets, &mut room)?;
    Ok(Composed {
        plan: Plan { budgets },
        shorts,
    })
}

/// A place for each part, where that is asked, and none else.
fn room_for_shorts(alloc: Global, sys: &System, asked: Asked) -> Result<Vec<Option<Short>>, Refusal>
    ensures one_each { asked ≡ Asked.Edge → IfOk result
        (λ shorts. length shorts.items ≡ length sys.now.parts) }
    ensures refusal { IfErr result (λ r. r ≡ Refusal.NoMemory) }
{
    let count = match asked {
        Asked::Least => 0,
        Asked::Edge => sys.parts().len(),
    };
    match vec![in alloc; None; count] {
        Ok(shorts) => Ok(shorts),
        Err(_) => Err(Refusal::NoMemory),
    }
}

/// Room for one budget a part, and for the tasks of one node.
pub fn rooms(alloc: Global, sys: &System) -> Result<(Vec<u64>, Vec<Task>), Refusal>
    ensures one_each { IfOk result (λ rooms. length rooms.0.items ≡ length sys.now.parts) }
    ensures room { IfOk result (λ rooms. MAX_PARTS ≤ length rooms.1.items) }
    ensures system { IsSystem sys.now }
    ensures refusal { IfErr result (λ r. r ≡ Refusal.NoMemory) }
{
    let Ok(budgets) = vec![in alloc; 0; sys.parts().len()] else {
        return Err(Refusal::NoMemory);
    };
    let Ok(room) = vec![in alloc; Task::least(); MAX_PARTS] else {
        return Err(Refusal::NoMemory);
    };
    Ok((budgets, room))
}

/// Writes the budgets of all parts, from the last to the first. `shorts` has a place for each part,
/// to which what is short of a computed leaf is written, or none. `room` is for the tasks of one
/// node.
fn settle_parts(
    sys: &System,
    budgets: &mut [u64],
    shorts: &mut [Option<Short>],
    room: &mut [Task],
) -> Result<(), Refusal>
    requires one_each { length budgets.old ≡ length sys.now.parts }
    requires room { MAX_PARTS ≤ length room.old }
    ensures assigned { IfOk result (λ _. Assigned sys.now budgets.new) }
    ensures pass { IfOk result (λ _. PartsPassFrom sys.now budgets.new 0) }
    ensures shorts { IfOk result (λ _. ShortsFrom sys.now budgets.new shorts.new 0) }
    ensures refusal { IfErr result (λ r. FirstRefusal sys.now r) }
{
    for q in (0..sys.parts().len() as u32).rev() {
        let asked = asked_of(sys, q, shorts.len());
        let settled = settle_part(sys, budgets, q, room, asked)?;
        budgets[q as usize] = settled.budget;
        keep_short(shorts, q, settled.below);
    }
    Ok(())
}

/// Writes what is short of part `q`, where it has a place.
fn keep_short(shorts: &mut [Option<Short>], q: u32, short: Option<Short>)
    ensures kept { q < length shorts.old → shorts.new ≡ slice_set shorts.old q short }
    ensures no_place { length shorts.old ≤ q → shorts.new ≡ shorts.old }
{
    if (q as usize) < shorts.len() {
        shorts[q as usize] = short;
    }
}

/// What is asked of part `q`, where so many parts have a place for what is short.
fn asked_of(sys: &System, q: u32, places: usize) -> Asked
    requires { q < length sys.now.parts }
    ensures { q < places → is_computed_leaf (part_at sys.now q) ≡ true → result ≡ Asked.Edge }
{
    if (q as usize) < places && sys.parts()[q as usize].is_computed_leaf() {
        Asked::Edge
    } else {
        Asked::Least
    }
}

/// The budget of part `q`, after those of all later parts.
pub fn settle_part(
    sys: &System,
    budgets: &[u64],
    q: u32,
    room: &mut [Task],
    asked: Asked,
) -> Result<Settled, Refusal>
    requires is_part { q < length sys.now.parts }
    requires assigned { AssignedFrom sys.now budgets.now (suc q) }
    requires pass { PartsPassFrom sys.now budgets.now (suc q) }
    requires room { MAX_PARTS ≤ length room.old }
    ensures assigned { IfOk result
        (λ s. AssignedFrom sys.now (slice_set budgets.now q s.budget) q) }
    ensures pass { IfOk result
        (λ s. PartsPassFrom sys.now (slice_set budgets.now q s.budget) q) }
    ensures below { asked ≡ Asked.Edge → is_computed_leaf (part_at sys.now q) ≡ true →
        IfOk result (λ s. IsShortOf (part_at sys.now q) s.budget s.below) }
    ensures refuses { IfErr result (λ r. RefusesAt sys.now budgets.now (Place.Part q) r) }
    ensures refusal { IfErr result (λ r. FirstRefusal sys.now r) }
{
    let part = &sys.parts()[q as usize];
    let node = Place::Part(q);
    let count = write_tasks(sys, budgets, node, room);
    part_budget(part, node, &room[..count], asked)
}

/// Tests the cores in order, after all parts.
fn test_cores(sys: &System, budgets: &[u64], room: &mut [Task]) -> Result<(), Refusal>
    requires assigned { Assigned sys.now budgets.now }
    requires pass { PartsPassFrom sys.now budgets.now 0 }
    requires room { MAX_PARTS ≤ length room.old }
    ensures pass { IfOk result (λ _. CoresPassTo sys.now budgets.now (length sys.now.cores)) }
    ensures refusal { IfErr result (λ r. FirstRefusal sys.now r) }
{
    for c in 0..sys.cores().len() as u32 {
        test_core(sys, budgets, c, room)?;
    }
    Ok(())
}

/// Tests core `c`, after all parts and the cores before it.
pub fn test_core(sys: &System, budgets: &[u64], c: u32, room: &mut [Task]) -> Result<(), Refusal>
    requires is_core { c < length sys.now.cores }
    requires assigned { Assigned sys.now budgets.now }
    requires pass { PartsPassFrom sys.now budgets.now 0 }
    requires before { CoresPassTo sys.now budgets.now c }
    requires room { MAX_PARTS ≤ length room.old }
    ensures passes { IfOk result (λ _. NodePasses sys.now budgets.now (Place.Core c)) }
    ensures refusal { IfErr result (λ r. FirstRefusal sys.now r) }
{
    let node = Place::Core(c);
    let sched = sched_of(sys, node);
    let supply = node_supply(sys, budgets, node);
    let count = write_tasks(sys, budgets, node, room);
    test_node(sched, node, &room[..count], &supply)
}
