ghost use Rattle.std.specs.Prelude.{◌≡◌, ◌≢◌, ℕ, ◌+◌, ◌<◌, ◌≤◌, Option, Some, length, IfOk};
ghost use Rattle.slot_model.specs.Task.{sporadic_tasks};
ghost use Rattle.slot_model.specs.Order.{ranks_above, before_of};
ghost use Rattle.fp_test.specs.Hits.{IsLeastHit, AnswersLeastHit};
ghost use Rattle.guest_sched.specs.Spans.{AreSpans, run_of};
ghost use Rattle.response_times.specs.Replay.{IsReplayable, IsWorstRun, ShowsResponse};
ghost use Rattle.response_times.specs.Response.{IsGreatestResponse};
ghost use Rattle.response_times.specs.inner.Ends.{EndsWith};

use crate::greatest::response;
use crate::jobs::response_jobs;
use guest_sched::{Keep, ReleasedLevel, Span, pattern_windows, spans_by};
use slot_model::{Sched, Task};
use std::alloc::{AllocError, Global};
use supply_bound::Supply;

/// The greatest response of task `i`, in slots, as a run shows it: over the worst pattern of the
/// supply all tasks release at its start, and the first job of the task takes so long.
pub fn replay<S: Supply>(
    alloc: Global,
    sched: Sched,
    tasks: &[Task],
    i: u32,
    s: &S,
) -> Result<u64, AllocError>
    requires fixed { sched ≢ Sched.Edf }
    requires i_named { i < length tasks.now }
    requires few { length tasks.now ≤ 256 }
    requires in_reach { let T = sporadic_tasks tasks.now in
        IsReplayable (ranks_above sched T) T (S.bound s.now) i (S.start_of s.now) }
    // what is seen in the run that ends with it
    ensures shown { let T = sporadic_tasks tasks.now in
        IfOk result (λ t. ShowsResponse (before_of sched T) T (S.pattern s.now)
        (S.start_of s.now) t i t) }
    ensures exact { let T = sporadic_tasks tasks.now in
        IfOk result (λ t. IsLeastHit (ranks_above sched T) T (S.bound s.now) i t) }
    // it is what `response` answers
    ensures same { let T = sporadic_tasks tasks.now in (answer : Option ℕ) →
        AnswersLeastHit (ranks_above sched T) T (S.bound s.now) i answer →
        IfOk result (λ t. answer ≡ Some t) }
    ensures greatest { let T = sporadic_tasks tasks.now in
        IfOk result (λ t. IsGreatestResponse (S.conforms s.now) (before_of sched T) T i t) }
{
    let Some(span) = response(sched, tasks, i, s) else {
        unreachable!()
    };
    let spans = worst_spans(alloc, sched, tasks, s, span)?;
    Ok(end_with(&spans, i) - s.start())
}

/// The first run of a guest in the worst case: over the worst pattern of the supply all tasks
/// release at its start, and the run ends `span` slots after that.
fn worst_spans<S: Supply>(
    alloc: Global,
    sched: Sched,
    tasks: &[Task],
    s: &S,
    span: u64,
) -> Result<Vec<Span>, AllocError>
    requires few { length tasks.now ≤ 256 }
    requires in_reach { S.start_of s.now + span ≤ 1000000 }
    ensures spans { IfOk result (λ spans. AreSpans spans.items (S.start_of s.now + span)) }
    ensures worst { let T = sporadic_tasks tasks.now in
        IfOk result (λ spans. IsWorstRun (before_of sched T) T (S.pattern s.now) (S.start_of s.now)
        span (run_of spans.items)) }
{
    let start = s.start();
    let jobs = response_jobs(alloc, tasks, start, span)?;
    let windows = pattern_windows(alloc, s, start + span)?;
    let level = ReleasedLevel {
        keep: Keep::UntilDone,
        tasks,
        jobs: jobs.as_slice(),
        given: &windows,
        slots: start + span,
    };
    spans_by(alloc, &level, sched)
}

/// Where a run ends that ends with a slot of job `j`.
fn end_with(spans: &[Span], j: u32) -> u64
    requires { (n : ℕ) × AreSpans spans.now n × EndsWith (run_of spans.now) n j }
    ensures { (n : ℕ) → AreSpans spans.now n → result ≡ n }
{
    let Some(last) = spans.last() else {
        unreachable!()
    };
    if last.job != Some(j) {
        unreachable!()
    }
    last.until
}
