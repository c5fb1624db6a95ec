ghost use Rattle.std.specs.Prelude.{◌≡◌, ◌↔◌, ◌-◌, ◌<◌, ◌≤◌, IsTrue};
ghost use Rattle.slot_model.specs.Task.{sporadic_tasks};
ghost use Rattle.slot_model.specs.Order.{ranks_above};
ghost use Rattle.slot_model.specs.Bound.{dbf, rbf};
ghost use Rattle.slot_model.specs.Points.{IsCover, IsChain};

use edf_demand::DemandLevel;
use fp_request::{RankedTask, room_at};
use supply_bound::Supply;

/// Whether the points are a cover of all windows up to `h`.
pub fn is_cover<S: Supply>(level: &DemandLevel, s: &S, h: u128, points: &[u128]) -> bool
    ensures { let T = sporadic_tasks level.now.tasks.now in
        IsTrue result ↔ IsCover T (S.bound s.now) h points.now }
{
    if points.is_empty() || points[0] < 1 {
        return false;
    }
    if !asks_nothing(level, points[0] - 1) {
        return false;
    }
    for j in 0..points.len() - 1 {
        if !covers(level, s, points[j], points[j + 1]) {
            return false;
        }
    }
    h < points[points.len() - 1]
}

fn asks_nothing(level: &DemandLevel, t: u128) -> bool
    ensures { IsTrue result ↔ (dbf (sporadic_tasks level.now.tasks.now) t ≡ 0) }
{
    match level.demand(t) {
        Some(asked) => asked == 0,
        None => false,
    }
}

/// Whether a point covers all windows up to the next.
fn covers<S: Supply>(level: &DemandLevel, s: &S, from: u128, to: u128) -> bool
    ensures { let T = sporadic_tasks level.now.tasks.now in
        IsTrue result ↔ ((from < to) × (dbf T (to - 1) ≤ S.bound s.now from)) }
{
    if to <= from {
        return false;
    }
    let given = s.least(from);
    match level.demand(to - 1) {
        Some(asked) => asked <= given,
        None => false,
    }
}

/// Whether the falls are a chain for a task, so that it has no hit.
pub fn is_chain<S: Supply>(task: &RankedTask, s: &S, falls: &[u64]) -> bool
    ensures { let T = sporadic_tasks task.now.tasks.now in
        IsTrue result ↔
        IsChain (ranks_above task.now.sched T) T (S.bound s.now) task.now.i falls.now }
{
    let end = room_at(task.tasks, task.i) + 1;
    if falls.is_empty() || falls[0] != 1 {
        return false;
    }
    for j in 0..falls.len() - 1 {
        if !falls_short(task, s, falls[j], falls[j + 1]) {
            return false;
        }
    }
    falls[falls.len() - 1] == end
}

/// Whether what is requested for a task at a point is more than the supply gives in every window
/// below the next.
fn falls_short<S: Supply>(task: &RankedTask, s: &S, from: u64, to: u64) -> bool
    ensures { let T = sporadic_tasks task.now.tasks.now in
        let above = ranks_above task.now.sched T in
        IsTrue result ↔ ((from < to) × (S.bound s.now (to - 1) < rbf above T task.now.i from)) }
{
    if to <= from {
        return false;
    }
    let given = s.least(to as u128 - 1);
    match task.request(from as u128) {
        Some(asked) => given < asked,
        None => true,
    }
}
