ghost use Rattle.std.specs.Prelude.{◌≡◌, ℕ, ◌<◌, List, [], Option, length, IfOk, OnOk};
ghost use Rattle.slot_model.specs.Task.{sporadic_tasks};
ghost use Rattle.slot_model.specs.Order.{before_of};
ghost use Rattle.guest_sched.specs.Spans.{AreSpans, run_of};
ghost use Rattle.guest_sched.specs.Levels.{FirstRunOf};

use crate::follow::Follow;
use crate::released::ReleasedLevel;
use crate::spans::{Span, follow_level, run_spans};
use fp_request::Fixed;
use slot_model::{Edf, Sched};
use std::alloc::{AllocError, Global};

/// The schedule of a level by a scheduler, as `run_spans` answers it for the scheduler's order.
pub fn spans_by(alloc: Global, level: &ReleasedLevel, sched: Sched) -> Result<Vec<Span>, AllocError>
    ensures spans { IfOk result (λ spans. AreSpans spans.items level.now.slots) }
    ensures first { let before = before_of sched (sporadic_tasks level.now.tasks.now) in
        IfOk result (λ spans. FirstRunOf level.now before (run_of spans.items)) }
{
    match Fixed::new(sched) {
        Some(order) => run_spans(alloc, level, &order),
        None => run_spans(alloc, level, &Edf),
    }
}

/// Lets `follower` follow the schedule of a level by a scheduler, as it is made: nothing is kept of
/// the run but what the follower keeps.
pub fn follow_by<F: Follow>(
    alloc: Global,
    level: &ReleasedLevel,
    sched: Sched,
    follower: &mut F,
) -> Result<(), AllocError>
    requires takes { (j : ℕ) → j < length level.now.jobs.now → F.takes follower.old j }
    requires begins { F.follows follower.old [] }
    ensures followed { let before = before_of sched (sporadic_tasks level.now.tasks.now) in
        OnOk result ((run : List (Option ℕ)) × FirstRunOf level.now before run ×
        F.follows follower.new run) }
    ensures same { OnOk result (F.numbers follower.new ≡ F.numbers follower.old) }
{
    match Fixed::new(sched) {
        Some(order) => follow_level(alloc, level, &order, follower),
        None => follow_level(alloc, level, &Edf, follower),
    }
}
