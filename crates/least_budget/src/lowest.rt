ghost use Rattle.std.specs.Prelude.{◌≢◌, ◌↔◌, ◌^◌, ◌<◌, length, IsTrue, IfSome};
ghost use Rattle.slot_model.specs.Task.{room_of, sporadic_tasks, task_at};
ghost use Rattle.slot_model.specs.Order.{ranks_above};
ghost use Rattle.least_budget.specs.inner.Hits.{HasHit};
ghost use Rattle.fp_request.specs.Lowest.{IsLowest};
ghost use Rattle.least_budget.specs.inner.CommonHit.{IsCommon};
ghost use Rattle.least_budget.specs.inner.Within.{IsWithin};

use fp_request::{RankedLevel, RankedTask, higher, room_at};
use fp_test::{hit_in, hit_of, is_hit};
use slot_model::{Sched, Task};
use supply_bound::Supply;

/// The least hit of the task that all others rank above: within it each task has a hit whose
/// deadline leaves as much past its jitter. None where there is no task, or the lowest has no hit.
pub fn hit_of_lowest<S: Supply>(level: &RankedLevel, s: &S) -> Option<u64>
    requires { length level.now.tasks.now < 2 ^ 32 }
    ensures { let T = sporadic_tasks level.now.tasks.now in
        IfSome result (λ t. IsCommon (ranks_above level.now.sched T) T (S.bound s.now) t) }
{
    if level.tasks.is_empty() {
        return None;
    }
    hit_in(level, lowest(level.sched, level.tasks), s)
}

/// The place of the task that all others rank above.
pub fn lowest(sched: Sched, tasks: &[Task]) -> u32
    requires fixed { sched ≢ Sched.Edf }
    requires few { length tasks.now < 2 ^ 32 }
    requires some { 0 < length tasks.now }
    ensures within { result < length tasks.now }
    ensures lowest { IsLowest (ranks_above sched (sporadic_tasks tasks.now))
        (length tasks.now) result }
{
    let mut low = 0;
    for i in 1..tasks.len() as u32 {
        if higher(sched, tasks, low, i) {
            low = i;
        }
    }
    low
}

/// Whether task `i` has a hit, where `common` is one of the lowest task.
pub fn has_hit_within<S: Supply>(level: &RankedLevel, i: u32, s: &S, common: Option<u64>) -> bool
    requires i_named { i < length level.now.tasks.now }
    requires common { let T = sporadic_tasks level.now.tasks.now in
        IfSome common (λ t. IsCommon (ranks_above level.now.sched T) T (S.bound s.now) t) }
    ensures { let T = sporadic_tasks level.now.tasks.now in
        IsTrue result ↔ HasHit (ranks_above level.now.sched T) T (S.bound s.now) i }
{
    is_within(level.tasks, i, common) || has_hit(&level.task(i), s)
}

/// Whether a task has a hit. Mostly the longest window that is in time is one, so it is asked
/// first.
pub fn has_hit<S: Supply>(task: &RankedTask, s: &S) -> bool
    ensures { let T = sporadic_tasks task.now.tasks.now in
        IsTrue result ↔ HasHit (ranks_above task.now.sched T) T (S.bound s.now) task.now.i }
{
    is_hit(task, s, room_at(task.tasks, task.i)) || hit_of(task, s).is_some()
}

/// Whether the room of task `i` reaches this window.
pub fn is_within(tasks: &[Task], i: u32, window: Option<u64>) -> bool
    requires { i < length tasks.now }
    ensures { IsTrue result ↔ IsWithin (room_of (task_at (sporadic_tasks tasks.now) i)) window }
{
    match window {
        Some(t) => t <= room_at(tasks, i),
        None => false,
    }
}
