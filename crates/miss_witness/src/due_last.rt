ghost use Rattle.std.specs.Prelude.{◌≡◌, ◌↔◌, ℕ, ◌+◌, ◌-◌, ◌^◌, ◌<◌, ◌≤◌, length, IsTrue};
ghost use Rattle.slot_model.specs.declared.task.TheConstants.{LIMIT};
ghost use Rattle.slot_model.specs.declared.sched.Sched.TheVariants.{Edf};
ghost use Rattle.slot_model.specs.Task.{sporadic_task, sporadic_tasks};
ghost use Rattle.slot_model.specs.Bound.{dbf, sbf, IsFirstShortPoint};
ghost use Rattle.miss_witness.specs.Replay.{ShowsMiss};
ghost use Rattle.miss_witness.specs.inner.DueLast.{is_due_last, last_release, stands_from, part_from, work_from, LacksFirst};

use crate::Defeat;
use edf_demand::demand;
use slot_model::{Miss, Task};
use supply_bound::{Periodic, Supply};
use window_terms::room_of;

/// The first miss of a defeat under earliest deadline first, whose window has `span` slots. No job
/// misses that is due before its end, and of those that are due then the first in the list go
/// first: so nothing needs to be run.
pub fn miss_at_end(tasks: &[Task], period: u64, defeat: &Defeat, span: u64) -> Miss
    requires few { length tasks.now ≤ 256 }
    requires some_period { 1 ≤ period }
    requires in_limit { period ≤ LIMIT }
    requires in_period { defeat.now.budget ≤ period }
    requires at_start { defeat.now.start ≡ defeat.now.budget }
    requires span { span ≡ defeat.now.span }
    requires in_reach { defeat.now.start + span ≤ 1000000 }
    requires point { let bound = sbf period defeat.now.budget in
        IsFirstShortPoint (sporadic_tasks tasks.now) bound span }
    ensures { ShowsMiss Edf (sporadic_tasks tasks.now) period defeat.now result }
{
    let lack = lack_at(tasks, period, defeat.budget, span);
    let i = first_lacking(tasks, span, lack);
    let task = &tasks[i as usize];
    Miss {
        task: i,
        release: defeat.start + release_in(task, span),
        deadline: defeat.start + span,
        got: work_behind(tasks, span, i) - lack,
        work: task.work,
    }
}

/// What is missing in a window of `span` slots: what the tasks ask for there, less what the supply
/// gives at the least.
fn lack_at(tasks: &[Task], period: u64, budget: u64, span: u64) -> u64
    requires few { length tasks.now ≤ 256 }
    requires some_period { 1 ≤ period }
    requires in_limit { period ≤ LIMIT }
    requires in_period { budget ≤ period }
    requires in_reach { span ≤ 1000000 }
    requires lacking { let T = sporadic_tasks tasks.now in
        (i : ℕ) × LacksFirst T span (dbf T span - sbf period budget span) i }
    ensures { result ≡ dbf (sporadic_tasks tasks.now) span - sbf period budget span }
{
    let supply = Periodic { period, budget };
    let given = supply.least(span as u128);
    let Some(asked) = demand(tasks, span as u128) else {
        unreachable!();
    };
    asked.saturating_sub(given) as u64
}

/// The task whose job is the first that lacks some of what is missing. Mostly it is one of the
/// last.
fn first_lacking(tasks: &[Task], span: u64, lack: u64) -> u32
    requires few { length tasks.now ≤ 256 }
    requires lacking { (i : ℕ) × LacksFirst (sporadic_tasks tasks.now) span lack i }
    ensures { LacksFirst (sporadic_tasks tasks.now) span lack result }
{
    for i in (0..tasks.len() as u32).rev() {
        if lacks_first(tasks, span, lack, i) {
            return i;
        }
    }
    unreachable!()
}

fn lacks_first(tasks: &[Task], span: u64, lack: u64, i: u32) -> bool
    requires few { length tasks.now ≤ 256 }
    requires i_named { i < length tasks.now }
    ensures { IsTrue result ↔ LacksFirst (sporadic_tasks tasks.now) span lack i }
{
    let task = &tasks[i as usize];
    if !is_due_last(task, span) {
        return false;
    }
    let behind = work_behind(tasks, span, i);
    lack <= behind && behind - lack < task.work
}

/// What the job of task `i` that is due at the end asks for, and those behind it in the list.
fn work_behind(tasks: &[Task], span: u64, i: u32) -> u64
    requires few { length tasks.now ≤ 256 }
    requires i_named { i < length tasks.now }
    ensures { result ≡ work_from (sporadic_tasks tasks.now) span i }
{
    let mut total = 0;
    for k in 0..tasks.len() as u32 {
        total += part_behind(tasks, span, i, k);
    }
    total
}

/// What task `k` asks for by such a job.
fn part_behind(tasks: &[Task], span: u64, i: u32, k: u32) -> u64
    requires i_named { i < length tasks.now }
    requires k_named { k < length tasks.now }
    ensures exact { result ≡ part_from (sporadic_tasks tasks.now) span i k }
    ensures small { result ≤ LIMIT }
{
    let task = &tasks[k as usize];
    if stands_behind(tasks, span, i, k) && is_due_last(task, span) {
        task.work
    } else {
        0
    }
}

/// Whether the job of task `k` that is due at the end is that of task `i`, or stands behind it.
fn stands_behind(tasks: &[Task], span: u64, i: u32, k: u32) -> bool
    requires i_named { i < length tasks.now }
    requires k_named { k < length tasks.now }
    ensures { result ≡ stands_from (sporadic_tasks tasks.now) span i k }
{
    let first = release_in(&tasks[i as usize], span);
    let next = release_in(&tasks[k as usize], span);
    first < next || (first == next && i <= k)
}

/// Whether a job of the task is due at the end of `span` slots.
fn is_due_last(task: &Task, span: u64) -> bool
    ensures { result ≡ is_due_last (sporadic_task task.now) span }
{
    let room = room_of(task);
    room <= span && (span - room) % task.period == 0
}

/// When that job is released, in slots after the start.
fn release_in(task: &Task, span: u64) -> u64
    ensures { result ≡ last_release (sporadic_task task.now) span }
{
    span.saturating_sub(task.deadline)
}
