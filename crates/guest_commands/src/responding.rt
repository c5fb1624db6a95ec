ghost use Rattle.std.specs.Prelude.{◌≡◌, ◌≢◌, ◌+◌, ◌<◌, ◌≤◌, ◌++◌, true, ℕ, List, length, slice_index_or, IfOk, OnOk, MatchOption};
ghost use Rattle.slot_model.specs.Task.{sporadic_tasks, room_of, task_at};
ghost use Rattle.slot_model.specs.Bound.{sbf, Passes};
ghost use Rattle.slot_model.specs.Order.{before_of, ranks_above};
ghost use Rattle.slot_model.specs.Supply.{GivesBudget, worst_slot};
ghost use Rattle.fp_test.specs.Hits.{IsLeastHit};
ghost use Rattle.response_times.specs.Replay.{ShowsResponse};
ghost use Rattle.response_times.specs.Response.{IsGreatestResponse};
ghost use Rattle.tree_model.specs.System.{part_at};
ghost use Rattle.tree_model.specs.Admission.{Admitted};
ghost use Rattle.guest_commands.specs.Responses.{is_fixed_leaf, answered_at, AnswerTasks, AreResponses};

use fp_request::{RankedLevel, room_at};
use response_times::response_in;
use rt_report::Response;
use slot_model::{MOST_SLOTS, Sched, Task};
use std::alloc::{AllocError, Global};
use supply_bound::{Periodic, Supply};
use tree_model::{MAX_TASKS, Part, Plan, System, own_tasks_in};
use window_terms::Term;

/// The responses of the tasks of all leaves under a fixed priority, in file order.
pub fn respond_all(alloc: Global, sys: &System, plan: &Plan) -> Result<Vec<Response>, AllocError>
    requires { Admitted sys.now plan.now }
    ensures { IfOk result (λ rows. AreResponses sys.now plan.now rows.items) }
{
    let mut room = vec![in alloc; Task::least(); MAX_TASKS]?;
    let mut terms = vec![in alloc; Term::none(); MAX_TASKS]?;
    respond_leaves(alloc, sys, plan, &mut room, &mut terms)
}

/// The same, where the tasks of each leaf are written to `room`, and their terms to `terms`.
fn respond_leaves(
    alloc: Global,
    sys: &System,
    plan: &Plan,
    room: &mut [Task],
    terms: &mut [Term],
) -> Result<Vec<Response>, AllocError>
    requires admitted { Admitted sys.now plan.now }
    requires room { 256 ≤ length room.old }
    ensures { IfOk result (λ rows. AreResponses sys.now plan.now rows.items) }
{
    let mut rows = Vec::new(alloc);
    for (q, part) in sys.parts().iter().enumerate() {
        if is_fixed_leaf(part) {
            respond_leaf(alloc, sys, plan, q as u32, room, terms, &mut rows)?;
        }
    }
    Ok(rows)
}

/// Whether a part is a leaf under a fixed priority.
fn is_fixed_leaf(part: &Part) -> bool
    ensures { result ≡ is_fixed_leaf part.now }
{
    part.is_leaf() && part.sched() != Sched::Edf
}

/// Adds the responses of the leaf at place `q`, whose tasks are written to `room`, and their terms
/// to `terms`.
fn respond_leaf(
    alloc: Global,
    sys: &System,
    plan: &Plan,
    q: u32,
    room: &mut [Task],
    terms: &mut [Term],
    rows: &mut Vec<Response>,
) -> Result<(), AllocError>
    requires admitted { Admitted sys.now plan.now }
    requires is_part { q < length sys.now.parts }
    requires fixed { is_fixed_leaf (part_at sys.now q) ≡ true }
    requires room { 256 ≤ length room.old }
    ensures { OnOk result ((places : List (ℕ × ℕ)) →
        AnswerTasks sys.now plan.now places rows.old.items →
        AnswerTasks sys.now plan.now (places ++ answered_at sys.now q) rows.new.items) }
{
    let part = &sys.parts()[q as usize];
    let budgets = plan.budgets();
    let tasks = own_tasks_in(part, room);
    let supply = Periodic {
        period: part.period(),
        budget: budgets[q as usize],
    };
    let sched = part.sched();
    let worst = responses(alloc, sched, tasks, terms, &supply)?;
    for i in 0..tasks.len() {
        rows.push(row_of(tasks, q, i as u32, worst[i], supply.start()))?;
    }
    Ok(())
}

/// The greatest response of each task of a guest over a supply under which it passes. `room` is for
/// the terms of the tasks.
fn responses(
    alloc: Global,
    sched: Sched,
    tasks: &[Task],
    room: &mut [Term],
    supply: &Periodic,
) -> Result<Vec<u64>, AllocError>
    requires fixed { sched ≢ Sched.Edf }
    requires few { length tasks.now ≤ 256 }
    requires passes { let bound = sbf supply.now.period supply.now.budget in
        Passes sched (sporadic_tasks tasks.now) bound }
    ensures long { IfOk result (λ worst. length worst.items ≡ length tasks.now) }
    ensures least { let T = sporadic_tasks tasks.now in
        let bound = sbf supply.now.period supply.now.budget in
        IfOk result (λ worst. (i : ℕ) → i < length tasks.now →
        IsLeastHit (ranks_above sched T) T bound i (slice_index_or worst.items i 0)) }
    ensures greatest { let T = sporadic_tasks tasks.now in
        let conforms = GivesBudget supply.now.period supply.now.budget in
        IfOk result (λ worst. (i : ℕ) → i < length tasks.now →
        IsGreatestResponse conforms (before_of sched T) T i (slice_index_or worst.items i 0)) }
    // what is seen in the run that ends with it
    ensures shown { let T = sporadic_tasks tasks.now in
        let pattern = worst_slot supply.now.period supply.now.budget in
        IfOk result (λ worst. (i : ℕ) → i < length tasks.now →
        let t = slice_index_or worst.items i 0 in
        ShowsResponse (before_of sched T) T pattern supply.now.budget t i t) }
{
    let level = RankedLevel::gather(sched, tasks, room);
    responses_in(alloc, &level, supply)
}

/// The same of a level that was gathered.
fn responses_in(
    alloc: Global,
    level: &RankedLevel,
    supply: &Periodic,
) -> Result<Vec<u64>, AllocError>
    requires few { length level.now.tasks.now ≤ 256 }
    requires passes { let bound = sbf supply.now.period supply.now.budget in
        Passes level.now.sched (sporadic_tasks level.now.tasks.now) bound }
    ensures long { IfOk result (λ worst. length worst.items ≡ length level.now.tasks.now) }
    ensures least { let T = sporadic_tasks level.now.tasks.now in
        let bound = sbf supply.now.period supply.now.budget in
        IfOk result (λ worst. (i : ℕ) → i < length level.now.tasks.now →
        IsLeastHit (ranks_above level.now.sched T) T bound i (slice_index_or worst.items i 0)) }
    ensures greatest { let T = sporadic_tasks level.now.tasks.now in
        let conforms = GivesBudget supply.now.period supply.now.budget in
        let before = before_of level.now.sched T in
        IfOk result (λ worst. (i : ℕ) → i < length level.now.tasks.now →
        IsGreatestResponse conforms before T i (slice_index_or worst.items i 0)) }
{
    let mut worst = Vec::with_capacity(alloc, level.tasks.len())?;
    for i in 0..level.tasks.len() {
        let Some(t) = response_in(level, i as u32, supply) else {
            unreachable!()
        };
        worst.push(t)?;
    }
    Ok(worst)
}

/// What is told of task `i` of the guest at place `q`, whose worst case begins at `start`.
fn row_of(tasks: &[Task], q: u32, i: u32, worst: u64, start: u64) -> Response
    requires { i < length tasks.now }
    ensures of { (result.part ≡ q) × (result.task ≡ i) }
    ensures limit { result.limit ≡ room_of (task_at (sporadic_tasks tasks.now) i) }
    ensures worst { result.worst ≡ worst }
    ensures replay { MatchOption result.replay (1000000 < start + result.worst)
        (λ t. (start + result.worst ≤ 1000000) × (t ≡ result.worst)) }
{
    Response {
        part: q,
        task: i,
        worst,
        limit: room_at(tasks, i),
        replay: replay_of(worst, start),
    }
}

/// What the replay of a greatest response shows, where the worst case begins at `start`: the same,
/// or None exactly where it ends past 1,000,000 slots. It is proved, and not run.
fn replay_of(worst: u64, start: u64) -> Option<u64>
    ensures { MatchOption result (1000000 < start + worst)
        (λ t. (start + worst ≤ 1000000) × (t ≡ worst)) }
{
    if start.saturating_add(worst) > MOST_SLOTS {
        return None;
    }
    Some(worst)
}
