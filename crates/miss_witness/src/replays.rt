ghost use Rattle.std.specs.Prelude.{◌≡◌, ◌+◌, ◌<◌, ◌≤◌, true, Bool, List, length, IfOk, MatchOption};
ghost use Rattle.slot_model.specs.declared.task.TheConstants.{LIMIT};
ghost use Rattle.slot_model.specs.Task.{sporadic_tasks};
ghost use Rattle.slot_model.specs.Supply.{worst_slot};
ghost use Rattle.slot_model.specs.Order.{before_of};
ghost use Rattle.slot_model.specs.Bound.{sbf};
ghost use Rattle.slot_model.specs.Miss.{MissesFromStart, WorstList};
ghost use Rattle.tree_model.specs.System.{part_at, is_computed_leaf};
ghost use Rattle.tree_model.specs.Tree.{budget_at};
ghost use Rattle.tree_model.specs.Admission.{Admitted};
ghost use Rattle.compose_tree.specs.Shorts.{AreShorts, IsShortOf};
ghost use Rattle.miss_witness.specs.Defeat.{IsShortWindow};
ghost use Rattle.miss_witness.specs.Replay.{AreReplays, IsReplay, IsReplayed};

use crate::due_last::miss_at_end;
use crate::witnesses::defeat_by;
use crate::{Defeat, Replay, witness_jobs};
use compose_tree::Composed;
use guest_sched::{Keep, ReleasedLevel, pattern_windows};
use slot_model::{MOST_SLOTS, Miss, Sched, Short, Task};
use span_counts::first_miss_by;
use std::alloc::{AllocError, Global};
use supply_bound::Periodic;
use tree_model::{MAX_TASKS, Plan, System, own_tasks_in};

/// The replays of all computed leaves, in file order: what defeats the next smaller budget of each,
/// and what is seen when that is run. What is short with that budget was asked when the budgets
/// were composed. It fails only where memory runs out.
pub fn replay_all(
    alloc: Global,
    sys: &System,
    composed: &Composed,
) -> Result<Vec<Replay>, AllocError>
    requires admitted { Admitted sys.now composed.now.plan }
    requires shorts { AreShorts sys.now composed.now.plan composed.now.shorts.items }
    ensures { IfOk result (λ replays. AreReplays sys.now composed.now.plan replays.items) }
{
    let mut room = vec![in alloc; Task::least(); MAX_TASKS]?;
    replay_leaves(alloc, sys, &composed.plan, &composed.shorts, &mut room)
}

/// The same, where the tasks of each leaf are written to `room`.
fn replay_leaves(
    alloc: Global,
    sys: &System,
    plan: &Plan,
    shorts: &[Option<Short>],
    room: &mut [Task],
) -> Result<Vec<Replay>, AllocError>
    requires admitted { Admitted sys.now plan.now }
    requires shorts { AreShorts sys.now plan.now shorts.now }
    requires room { 256 ≤ length room.old }
    ensures { IfOk result (λ replays. AreReplays sys.now plan.now replays.items) }
{
    let mut replays = Vec::new(alloc);
    for (q, part) in sys.parts().iter().enumerate() {
        if part.is_computed_leaf() {
            replays.push(replay_leaf(alloc, sys, plan, q as u32, shorts[q], room)?)?;
        }
    }
    Ok(replays)
}

/// The replay of the computed leaf at place `q`, of which this is short first with one slot less.
/// Its tasks are written to `room`.
fn replay_leaf(
    alloc: Global,
    sys: &System,
    plan: &Plan,
    q: u32,
    short: Option<Short>,
    room: &mut [Task],
) -> Result<Replay, AllocError>
    requires admitted { Admitted sys.now plan.now }
    requires is_part { q < length sys.now.parts }
    requires computed { is_computed_leaf (part_at sys.now q) ≡ true }
    requires short { IsShortOf (part_at sys.now q) (budget_at plan.now q) short }
    requires room { 256 ≤ length room.old }
    ensures { IfOk result (λ replay. IsReplay sys.now plan.now q replay) }
{
    let part = &sys.parts()[q as usize];
    let budgets = plan.budgets();
    let Some(short) = short else {
        unreachable!();
    };
    let sched = part.sched();
    let period = part.period();
    let tasks = own_tasks_in(part, room);
    let least = budgets[q as usize];
    let witness = defeat_by(sched, tasks, period, least, short);
    let miss = seen_miss(alloc, sched, tasks, period, &witness)?;
    Ok(Replay {
        part: q,
        witness,
        miss,
    })
}

/// The first miss that is seen when the jobs of a defeat are run over the worst pattern of its
/// budget, and None exactly where its window ends past 1,000,000 slots.
fn seen_miss(
    alloc: Global,
    sched: Sched,
    tasks: &[Task],
    period: u64,
    defeat: &Defeat,
) -> Result<Option<Miss>, AllocError>
    requires few { length tasks.now ≤ 256 }
    requires some_period { 1 ≤ period }
    requires in_limit { period ≤ LIMIT }
    requires in_period { defeat.now.budget ≤ period }
    requires at_start { defeat.now.start ≡ defeat.now.budget }
    requires short { let bound = sbf period defeat.now.budget in
        IsShortWindow sched (sporadic_tasks tasks.now) bound defeat.now.span defeat.now.task }
    requires misses { (slots : List Bool) →
        WorstList (worst_slot period defeat.now.budget) defeat.now.start defeat.now.span slots →
        MissesFromStart (worst_slot period defeat.now.budget) defeat.now.start defeat.now.span
        (before_of sched (sporadic_tasks tasks.now)) (sporadic_tasks tasks.now) slots }
    ensures { IfOk result
        (λ miss. IsReplayed sched (sporadic_tasks tasks.now) period defeat.now miss) }
{
    let Some(slots) = window_end(defeat) else {
        return Ok(None);
    };
    match sched {
        Sched::Edf => Ok(Some(miss_at_end(tasks, period, defeat, slots - defeat.start))),
        _ => run_defeat(alloc, sched, tasks, period, defeat, slots),
    }
}

/// The first miss when they are run up to `slots`, where the window ends.
fn run_defeat(
    alloc: Global,
    sched: Sched,
    tasks: &[Task],
    period: u64,
    defeat: &Defeat,
    slots: u64,
) -> Result<Option<Miss>, AllocError>
    requires few { length tasks.now ≤ 256 }
    requires some_period { 1 ≤ period }
    requires in_limit { period ≤ LIMIT }
    requires in_period { defeat.now.budget ≤ period }
    requires end { slots ≡ defeat.now.start + defeat.now.span }
    requires in_reach { slots ≤ 1000000 }
    requires misses { (slots : List Bool) →
        WorstList (worst_slot period defeat.now.budget) defeat.now.start defeat.now.span slots →
        MissesFromStart (worst_slot period defeat.now.budget) defeat.now.start defeat.now.span
        (before_of sched (sporadic_tasks tasks.now)) (sporadic_tasks tasks.now) slots }
    ensures { IfOk result
        (λ miss. IsReplayed sched (sporadic_tasks tasks.now) period defeat.now miss) }
{
    let supply = Periodic {
        period,
        budget: defeat.budget,
    };
    let windows = pattern_windows(alloc, &supply, slots)?;
    let jobs = witness_jobs(alloc, tasks, defeat)?;
    let level = ReleasedLevel {
        keep: Keep::UntilDone,
        tasks,
        jobs: jobs.as_slice(),
        given: &windows,
        slots,
    };
    first_miss_by(alloc, &level, sched)
}

/// Where the window of a defeat ends, and None exactly where that is past 1,000,000 slots.
fn window_end(defeat: &Defeat) -> Option<u64>
    ensures { MatchOption result (1000000 < defeat.now.start + defeat.now.span)
        (λ end. (end ≡ defeat.now.start + defeat.now.span) × (end ≤ 1000000)) }
{
    let end = defeat.span.checked_add(defeat.start as u128)?;
    if end > MOST_SLOTS as u128 {
        return None;
    }
    Some(end as u64)
}
