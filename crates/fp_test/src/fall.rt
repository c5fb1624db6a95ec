ghost use Rattle.std.specs.Prelude.{◌≢◌, ◌<◌, length, IfOk};
ghost use Rattle.slot_model.specs.Task.{sporadic_tasks};
ghost use Rattle.slot_model.specs.Order.{ranks_above};
ghost use Rattle.slot_model.specs.Bound.{IsShortTask};
ghost use Rattle.slot_model.specs.Points.{IsChain};
ghost use Rattle.fp_test.specs.Falls.{IsNextFall, AreFalls, ChainsShow};

use fp_request::{RankedLevel, RankedTask, room_at};
use slot_model::{Sched, Task};
use std::alloc::{AllocError, Global};
use supply_bound::Supply;
use window_terms::{KEPT, Term};

/// Windows, in slots, that show that task `i` has no hit: from 1 on, each is the least whose supply
/// bound is the request bound at the one before, and the last is the first past what the deadline
/// leaves past the jitter. Only memory can be wanting.
pub fn falls<S: Supply>(
    alloc: Global,
    sched: Sched,
    tasks: &[Task],
    i: u32,
    s: &S,
) -> Result<Vec<u64>, AllocError>
    requires fixed { sched ≢ Sched.Edf }
    requires i_named { i < length tasks.now }
    requires no_hit { let T = sporadic_tasks tasks.now in
        IsShortTask (ranks_above sched T) T (S.bound s.now) i }
    ensures falls { let T = sporadic_tasks tasks.now in
        IfOk result (λ v. AreFalls (ranks_above sched T) T (S.bound s.now) i v.items) }
    ensures chain { let T = sporadic_tasks tasks.now in
        IfOk result (λ v. IsChain (ranks_above sched T) T (S.bound s.now) i v.items) }
    // what a chain says: no window within the deadline is a hit
    ensures shows { let T = sporadic_tasks tasks.now in
        ChainsShow (ranks_above sched T) T (S.bound s.now) i }
{
    let mut room = [Term::none(); KEPT];
    let level = RankedLevel::gather(sched, tasks, &mut room);
    falls_of(alloc, &level.task(i), s)
}

/// The same, of a task that was gathered.
pub fn falls_of<S: Supply>(alloc: Global, task: &RankedTask, s: &S) -> Result<Vec<u64>, AllocError>
    requires { let T = sporadic_tasks task.now.tasks.now in
        IsShortTask (ranks_above task.now.sched T) T (S.bound s.now) task.now.i }
    ensures falls { let T = sporadic_tasks task.now.tasks.now in
        let above = ranks_above task.now.sched T in
        IfOk result (λ v. AreFalls above T (S.bound s.now) task.now.i v.items) }
    ensures chain { let T = sporadic_tasks task.now.tasks.now in
        let above = ranks_above task.now.sched T in
        IfOk result (λ v. IsChain above T (S.bound s.now) task.now.i v.items) }
    ensures shows { let T = sporadic_tasks task.now.tasks.now in
        ChainsShow (ranks_above task.now.sched T) T (S.bound s.now) task.now.i }
{
    let end = room_at(task.tasks, task.i) + 1;
    let mut windows = Vec::new(alloc);
    let mut last = 1;
    windows.push(last)?;
    while last < end {
        last = next_fall(task, s, last);
        windows.push(last)?;
    }
    Ok(windows)
}

/// The fall after a window.
fn next_fall<S: Supply>(task: &RankedTask, s: &S, from: u64) -> u64
    ensures { let T = sporadic_tasks task.now.tasks.now in
        IsNextFall (ranks_above task.now.sched T) T (S.bound s.now) task.now.i from result }
{
    let room = room_at(task.tasks, task.i);
    let Some(asked) = task.request(from as u128) else {
        return room + 1;
    };
    let Some(t) = s.reach(asked) else {
        return room + 1;
    };
    if t > room as u128 {
        return room + 1;
    }
    t as u64
}
