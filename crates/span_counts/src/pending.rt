ghost use Rattle.std.specs.Prelude.{◌≡◌, ◌↔◌, ℕ, ◌+◌, ◌-◌, ◌*◌, ◌^◌, ◌≤◌, ◌<◌, List, [], Option, length, IfOk, IsTrue};
ghost use Rattle.slot_model.specs.Task.{SporadicTask, job_at};
ghost use Rattle.slot_model.specs.Run.{guest, Pending};
ghost use Rattle.slot_model.specs.Miss.{HoldsReleased};
ghost use Rattle.guest_sched.specs.Spans.{AreSpans, run_of};
ghost use Rattle.span_counts.specs.Pending.{is_pending, pairs_pending};
ghost use Rattle.span_counts.specs.inner.Waits.{wait_at, AreWaitsTo};

use guest_sched::{Follow, Span, follow_spans};
use slot_model::Job;
use std::alloc::{AllocError, Global};

/// What a job still lacks of its work, and the moment from which it has all of it, as far as is
/// known: the end of the run while it lacks some.
#[derive(Clone, Copy, Debug, PartialEq, Eq)]
pub struct Wait {
    pub left: u64,
    pub end: u64,
}

/// The number of pairs of a job and a slot of the run at which the job is pending at a guest level:
/// it is released, and did not get its work before. One pass over the spans and one over the jobs.
pub fn count_pending(
    alloc: Global,
    jobs: &[Job],
    spans: &[Span],
    slots: u64,
) -> Result<u64, AllocError>
    requires works { (j : ℕ) → j < length jobs.now → 1 ≤ (job_at jobs.now j).work }
    requires released { HoldsReleased jobs.now (run_of spans.now) }
    requires spans { AreSpans spans.now slots }
    requires long { length (run_of spans.now) ≡ slots }
    requires few { length jobs.now * slots < 2 ^ 64 }
    ensures number { IfOk result (λ n. n ≡ pairs_pending jobs.now (run_of spans.now)) }
    ensures few { IfOk result (λ n. n ≤ length jobs.now * slots) }
    ensures pending { (tasks : List SporadicTask) (j x : ℕ) → j < length jobs.now →
        IsTrue (is_pending jobs.now (run_of spans.now) j x)
        ↔ Pending guest tasks jobs.now (run_of spans.now) j x }
{
    let waits = waits_of(alloc, jobs, spans, slots)?;
    Ok(sum_of_waits(jobs, &waits, slots))
}

/// What each job lacks of its work, followed as a run of `slots` slots is made.
#[derive(Drop)]
pub struct Waits<'a> {
    jobs: &'a [Job],
    slots: u64,
    waits: Vec<Wait>,
}

impl<'a> Waits<'a> {
    /// Before the first slot.
    fn new(alloc: Global, jobs: &'a [Job], slots: u64) -> Result<Waits<'a>, AllocError>
        requires works { (j : ℕ) → j < length jobs.now → 1 ≤ (job_at jobs.now j).work }
        ensures over { IfOk result (λ w. (w.jobs.now ≡ jobs.now) × (w.slots ≡ slots)) }
        ensures begins { IfOk result (λ w. AreWaitsTo jobs.now [] slots 0 w.waits.items) }
    {
        let waits = first_waits(alloc, jobs, slots)?;
        Ok(Waits { jobs, slots, waits })
    }
}

impl<'a> Follow for Waits<'a> {
    ghost use Rattle.std.specs.Prelude.{◌<◌, ◌∷◌, length, map};
    ghost use Rattle.span_counts.specs.inner.Waits.{AreWaitsTo};

    ghost follows = { λ w run. AreWaitsTo w.jobs.now run w.slots (length run) w.waits.items };

    ghost numbers = { λ w. w.slots ∷ map (λ j. j.work) w.jobs.now };

    ghost takes = { λ w j. j < length w.jobs.now };

    fn add(&mut self, span: Span) -> Result<(), AllocError> {
        if let Some(job) = span.job {
            let place = job as usize;
            let wait = self.waits[place];
            self.waits[place] = served(wait, span.from, span.until);
        }
        Ok(())
    }
}

/// What each job lacks of its work at the end of a run of spans of `slots` slots.
fn waits_of(
    alloc: Global,
    jobs: &[Job],
    spans: &[Span],
    slots: u64,
) -> Result<Vec<Wait>, AllocError>
    requires works { (j : ℕ) → j < length jobs.now → 1 ≤ (job_at jobs.now j).work }
    requires released { HoldsReleased jobs.now (run_of spans.now) }
    requires spans { AreSpans spans.now slots }
    requires long { length (run_of spans.now) ≡ slots }
    ensures { IfOk result (λ waits.
        AreWaitsTo jobs.now (run_of spans.now) slots slots waits.items) }
{
    let mut waits = Waits::new(alloc, jobs, slots)?;
    follow_spans(&mut waits, spans)?;
    Ok(waits.waits)
}

/// The waits before the run: each job lacks all its work.
fn first_waits(alloc: Global, jobs: &[Job], slots: u64) -> Result<Vec<Wait>, AllocError>
    requires works { (j : ℕ) → j < length jobs.now → 1 ≤ (job_at jobs.now j).work }
    ensures { (run : List (Option ℕ)) →
        IfOk result (λ waits. AreWaitsTo jobs.now run slots 0 waits.items) }
{
    let mut waits = Vec::with_capacity(alloc, jobs.len())?;
    for job in jobs {
        waits.push(Wait {
            left: job.work,
            end: slots,
        })?;
    }
    Ok(waits)
}

/// The wait of a job that has the slots from one moment to another.
fn served(wait: Wait, from: u64, until: u64) -> Wait
    requires { from ≤ until }
    ensures left { result.left ≡ wait.left - (until - from) }
    ensures ends { 0 < wait.left → wait.left ≤ until - from → result.end ≡ from + wait.left }
    ensures waits { until - from < wait.left → result.end ≡ wait.end }
    ensures over { wait.left ≡ 0 → result.end ≡ wait.end }
{
    let given = until - from;
    if wait.left == 0 {
        return wait;
    }
    if given < wait.left {
        return Wait {
            left: wait.left - given,
            end: wait.end,
        };
    }
    Wait {
        left: 0,
        end: from + wait.left,
    }
}

/// The slots from the release of each job to the moment from which it has its work, in sum.
fn sum_of_waits(jobs: &[Job], waits: &[Wait], slots: u64) -> u64
    requires few { length jobs.now * slots < 2 ^ 64 }
    requires long { length waits.now ≡ length jobs.now }
    requires ends { (j : ℕ) → j < length jobs.now → (wait_at waits.now j).end ≤ slots }
    ensures number { (run : List (Option ℕ)) → length run ≡ slots →
        AreWaitsTo jobs.now run slots slots waits.now → result ≡ pairs_pending jobs.now run }
    ensures few { result ≤ length jobs.now * slots }
{
    let mut pending = 0;
    for place in 0..jobs.len() {
        pending += waits[place].end.saturating_sub(jobs[place].release);
    }
    pending
}
