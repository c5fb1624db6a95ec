ghost use Rattle.std.specs.Prelude.{◌≡◌, ◌≢◌, ◌+◌, ◌-◌, ◌/◌, ◌<◌, ◌≤◌, ◌^◌, length, MatchOption};
ghost use Rattle.slot_model.specs.declared.task.TheConstants.{LIMIT};
ghost use Rattle.slot_model.specs.Task.{sporadic_task, sporadic_tasks};
ghost use Rattle.slot_model.specs.Order.{ranks_above};
ghost use Rattle.slot_model.specs.Bound.{request_of, rbf};
ghost use Rattle.fp_request.specs.Parts.{part_of};
ghost use Rattle.fp_request.specs.Released.{RequestsBound};

use crate::rank::ranks;
use slot_model::{LIMIT, Sched, Task};

/// The request bound of task `i` for `t` slots: its own work, and what the tasks that rank above it
/// ask for if they are released there. None exactly where it passes 2^128 - 1.
pub fn request(sched: Sched, tasks: &[Task], i: u32, t: u128) -> Option<u128>
    requires fixed { sched ≢ Sched.Edf }
    requires i_named { i < length tasks.now }
    ensures exact { MatchOption result
        (2 ^ 128 ≤
        rbf (ranks_above sched (sporadic_tasks tasks.now)) (sporadic_tasks tasks.now) i t)
        (λ r. r ≡
        rbf (ranks_above sched (sporadic_tasks tasks.now)) (sporadic_tasks tasks.now) i t) }
    ensures bounds { RequestsBound (sporadic_tasks tasks.now) t }
{
    if t <= LIMIT as u128 {
        Some(request_within(sched, tasks, i, t as u64))
    } else {
        request_past(sched, tasks, i, t)
    }
}

/// The same for a window no longer than a period may be, in 64 bits but for the sum: a division of
/// 128 is slow.
fn request_within(sched: Sched, tasks: &[Task], i: u32, t: u64) -> u128
    requires fixed { sched ≢ Sched.Edf }
    requires i_named { i < length tasks.now }
    requires short { t ≤ LIMIT }
    ensures { let T = sporadic_tasks tasks.now in result ≡ rbf (ranks_above sched T) T i t }
{
    let mut total = tasks[i as usize].work as u128;
    for k in 0..tasks.len() {
        total += part_within(sched, tasks, i as usize, t, k) as u128;
    }
    total
}

/// What task `k` adds to the request bound of task `i`.
fn part_within(sched: Sched, tasks: &[Task], i: usize, t: u64, k: usize) -> u64
    requires fixed { sched ≢ Sched.Edf }
    requires i_named { i < length tasks.now }
    requires k_named { k < length tasks.now }
    requires short { t ≤ LIMIT }
    ensures exact { let T = sporadic_tasks tasks.now in
        result ≡ part_of (ranks_above sched T) T i t k }
    ensures fits { result < 2 ^ 64 }
{
    if ranks(sched, tasks, k, i) {
        request_of_short(&tasks[k], t)
    } else {
        0
    }
}

/// The same for a longer window.
fn request_past(sched: Sched, tasks: &[Task], i: u32, t: u128) -> Option<u128>
    requires fixed { sched ≢ Sched.Edf }
    requires i_named { i < length tasks.now }
    ensures { let T = sporadic_tasks tasks.now in
        MatchOption result (2 ^ 128 ≤ rbf (ranks_above sched T) T i t)
        (λ r. r ≡ rbf (ranks_above sched T) T i t) }
{
    let mut sum = tasks[i as usize].work as u128;
    for (k, task) in tasks.iter().enumerate() {
        if ranks(sched, tasks, k, i as usize) {
            sum = sum.checked_add(request_of_task(task, t)?)?;
        }
    }
    Some(sum)
}

/// The work that one task's jobs ask for if they are released in `t` slots, and so arrive in as
/// many and the task's jitter.
fn request_of_task(task: &Task, t: u128) -> Option<u128>
    ensures { MatchOption result (2 ^ 128 ≤ request_of (sporadic_task task.now) t)
        (λ r. r ≡ request_of (sporadic_task task.now) t) }
{
    arrivals(t, task.period, task.jitter).checked_mul(task.work as u128)
}

/// The same for a window no longer than a period may be, in 64 bits.
fn request_of_short(task: &Task, t: u64) -> u64
    requires { t ≤ LIMIT }
    ensures { result ≡ request_of (sporadic_task task.now) t }
{
    arrivals_within(t, task.period, task.jitter) * task.work
}

/// How many jobs a period apart arrive in `t + jitter` slots, which most often is one.
fn arrivals_within(t: u64, period: u64, jitter: u64) -> u64
    requires short { t ≤ LIMIT }
    requires jitter { jitter < period }
    requires in_limit { period ≤ LIMIT }
    ensures { result ≡ (t + jitter + (period - 1)) / period }
{
    let span = t + jitter;
    if span <= period {
        return span.min(1);
    }
    (span + (period - 1)) / period
}

/// How many jobs a period apart arrive in `t + jitter` slots, a number that may pass 2^128.
fn arrivals(t: u128, period: u64, jitter: u64) -> u128
    requires { jitter < period }
    ensures { result ≡ (t + jitter + (period - 1)) / period }
{
    let period = period as u128;
    let rest = t % period + jitter as u128;
    t / period + rest.div_ceil(period)
}
