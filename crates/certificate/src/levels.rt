ghost use Rattle.std.specs.Prelude.{◌≢◌, ℕ, ◌-◌, ◌^◌, ◌<◌, ◌≤◌, length, IfOk};
ghost use Rattle.slot_model.specs.declared.task.TheConstants.{LIMIT};
ghost use Rattle.slot_model.specs.Task.{sporadic_tasks};
ghost use Rattle.slot_model.specs.Order.{ranks_above};
ghost use Rattle.slot_model.specs.Bound.{sbf, AllHit, DemandFits, IsShortTask, IsSmall, Passes};
ghost use Rattle.fp_test.specs.Falls.{AreFalls};
ghost use Rattle.certificate.specs.Made.{IsBackwardCover, AreLeastHits, ListsPass, ListsShort};

use edf_demand::{DemandLevel, horizon};
use edf_test::cover_of;
use fp_request::RankedLevel;
use fp_test::{falls_of, hit_in};
use miss_witness::witness;
use slot_model::{Sched, Task};
use std::alloc::{AllocError, Global};
use supply_bound::{Periodic, Supply};
use window_terms::Term;

/// The points and the hits that show that a level passes. `room` is for the terms of its tasks.
pub fn pass_lists<S: Supply>(
    alloc: Global,
    room: &mut [Term],
    sched: Sched,
    tasks: &[Task],
    s: &S,
) -> Result<(Vec<u128>, Vec<u64>), AllocError>
    requires few { length tasks.now < 2 ^ 32 }
    requires small { IsSmall sched (sporadic_tasks tasks.now) (S.cycle_of s.now) }
    requires passes { Passes sched (sporadic_tasks tasks.now) (S.bound s.now) }
    ensures { let T = sporadic_tasks tasks.now in
        IfOk result (λ lists.
        ListsPass sched T (S.bound s.now) (S.cycle_of s.now) lists.0.items lists.1.items) }
{
    match sched {
        Sched::Edf => Ok((points_of(alloc, room, tasks, s)?, Vec::new(alloc))),
        _ => Ok((Vec::new(alloc), hits_by(alloc, room, sched, tasks, s)?)),
    }
}

/// The windows that cover all windows up to the horizon. `room` is for the terms of the tasks.
fn points_of<S: Supply>(
    alloc: Global,
    room: &mut [Term],
    tasks: &[Task],
    s: &S,
) -> Result<Vec<u128>, AllocError>
    requires small { IsSmall Sched.Edf (sporadic_tasks tasks.now) (S.cycle_of s.now) }
    requires fits { DemandFits (sporadic_tasks tasks.now) (S.bound s.now) }
    ensures { let T = sporadic_tasks tasks.now in
        IfOk result (λ points. IsBackwardCover T (S.bound s.now) (S.cycle_of s.now) points.items) }
{
    let h = horizon(tasks, s.cycle()).unwrap();
    let level = DemandLevel::gather(tasks, room);
    let mut points = cover_of(alloc, &level, s, h)?.unwrap();
    // the text of all points finds room in what the lists do not use
    points.shrink_to_fit();
    Ok(points)
}

/// The least hit of each task. `room` is for their terms.
fn hits_by<S: Supply>(
    alloc: Global,
    room: &mut [Term],
    sched: Sched,
    tasks: &[Task],
    s: &S,
) -> Result<Vec<u64>, AllocError>
    requires fixed { sched ≢ Sched.Edf }
    requires few { length tasks.now < 2 ^ 32 }
    requires all_hit { let T = sporadic_tasks tasks.now in
        AllHit (ranks_above sched T) T (S.bound s.now) }
    ensures { let T = sporadic_tasks tasks.now in
        IfOk result (λ hits. AreLeastHits (ranks_above sched T) T (S.bound s.now) hits.items) }
{
    let level = RankedLevel::gather(sched, tasks, room);
    hits_of(alloc, &level, s)
}

/// The same of a level.
fn hits_of<S: Supply>(alloc: Global, level: &RankedLevel, s: &S) -> Result<Vec<u64>, AllocError>
    requires few { length level.now.tasks.now < 2 ^ 32 }
    requires all_hit { let T = sporadic_tasks level.now.tasks.now in
        AllHit (ranks_above level.now.sched T) T (S.bound s.now) }
    ensures { let T = sporadic_tasks level.now.tasks.now in
        let above = ranks_above level.now.sched T in
        IfOk result (λ hits. AreLeastHits above T (S.bound s.now) hits.items) }
{
    let mut hits = Vec::with_capacity(alloc, level.tasks.len())?;
    for i in 0..level.tasks.len() as u32 {
        hits.push(hit_in(level, i, s).unwrap())?;
    }
    Ok(hits)
}

/// The witness and the falls that show that a level does not pass with one slot less than `least`.
/// `room` is for the terms of its tasks.
pub fn short_lists(
    alloc: Global,
    room: &mut [Term],
    sched: Sched,
    tasks: &[Task],
    period: u64,
    least: u64,
) -> Result<(Option<u128>, Vec<u64>), AllocError>
    requires few { length tasks.now < 2 ^ 32 }
    requires some_budget { 1 ≤ least }
    requires in_period { least ≤ period }
    requires in_limit { period ≤ LIMIT }
    requires small { IsSmall sched (sporadic_tasks tasks.now) period }
    requires falls_short { Passes sched (sporadic_tasks tasks.now) (sbf period (least - 1)) → ⊥ }
    ensures { let bound = sbf period (least - 1) in
        IfOk result (λ lists.
        ListsShort sched (sporadic_tasks tasks.now) bound lists.0 lists.1.items) }
{
    let defeat = witness(sched, tasks, period, least);
    match defeat.task {
        None => Ok((Some(defeat.span), Vec::new(alloc))),
        Some(task) => {
            let less = Periodic {
                period,
                budget: least - 1,
            };
            let falls = falls_by(alloc, room, sched, tasks, task, &less)?;
            Ok((Some(task as u128), falls))
        }
    }
}

/// The falls of task `i`, which has no hit. `room` is for the terms of the tasks.
fn falls_by<S: Supply>(
    alloc: Global,
    room: &mut [Term],
    sched: Sched,
    tasks: &[Task],
    i: u32,
    s: &S,
) -> Result<Vec<u64>, AllocError>
    requires fixed { sched ≢ Sched.Edf }
    requires i_named { i < length tasks.now }
    requires no_hit { let T = sporadic_tasks tasks.now in
        IsShortTask (ranks_above sched T) T (S.bound s.now) i }
    ensures { let T = sporadic_tasks tasks.now in
        IfOk result (λ falls. AreFalls (ranks_above sched T) T (S.bound s.now) i falls.items) }
{
    let level = RankedLevel::gather(sched, tasks, room);
    falls_of(alloc, &level.task(i), s)
}
