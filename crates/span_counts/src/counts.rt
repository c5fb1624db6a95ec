ghost use Rattle.std.specs.Prelude.{◌≡◌, ◌↔◌, ℕ, ◌+◌, ◌-◌, ◌^◌, ◌≤◌, ◌<◌, min, true, false, List, Option, length, IfOk, MatchOption};
ghost use Rattle.slot_model.specs.Slots.{count_below, slots_between};
ghost use Rattle.slot_model.specs.Task.{sporadic_tasks};
ghost use Rattle.slot_model.specs.Order.{before_of};
ghost use Rattle.slot_model.specs.Miss.{AreInJitter, AreNamed, HoldsReleased, IsFirstMiss, NoneMissed, is_missed, miss_of};
ghost use Rattle.guest_sched.specs.Spans.{AreWindows, AreSpans, slots_of, run_of};
ghost use Rattle.guest_sched.specs.Levels.{FirstRunOf};
ghost use Rattle.span_counts.specs.Counts.{AreCounts, is_early};
ghost use Rattle.span_counts.specs.inner.Services.{AreServices};

use crate::services::{services_by, services_in};
use guest_sched::{ReleasedLevel, Span, Window};
use slot_model::{Job, Miss, Sched, Task, deadline_moment, earlier_miss};
use std::alloc::{AllocError, Global};

/// What is counted of a level's run: the slots that it is given, its jobs that are released before
/// the end, those of them that miss, and the first miss.
#[derive(Clone, Copy, Debug, PartialEq, Eq)]
pub struct Counts {
    pub given: u64,
    pub released: u64,
    pub missed: u64,
    pub first: Option<Miss>,
}

/// The counts of a level's run over windows of `slots` slots, in one pass over its windows, its
/// spans and its jobs.
pub fn count_level(
    alloc: Global,
    tasks: &[Task],
    jobs: &[Job],
    given: &[Window],
    spans: &[Span],
    slots: u64,
) -> Result<Counts, AllocError>
    requires named { AreNamed (sporadic_tasks tasks.now) jobs.now }
    requires in_jitter { AreInJitter (sporadic_tasks tasks.now) jobs.now }
    requires released { HoldsReleased jobs.now (run_of spans.now) }
    requires windows { AreWindows given.now slots }
    requires spans { AreSpans spans.now slots }
    requires long { length (run_of spans.now) ≡ slots }
    ensures { let T = sporadic_tasks tasks.now in
        IfOk result (λ counts. AreCounts T jobs.now (slots_of given.now slots)
        (run_of spans.now) counts) }
{
    let got = services_in(alloc, tasks, jobs, spans)?;
    Ok(counts_of(tasks, jobs, given, slots, &got))
}

/// The counts of the schedule of a level by a scheduler, counted as it is made. No span of it is
/// kept.
pub fn counts_by(alloc: Global, level: &ReleasedLevel, sched: Sched) -> Result<Counts, AllocError>
    ensures { let T = sporadic_tasks level.now.tasks.now in
        IfOk result (λ counts. (run : List (Option ℕ))
        × FirstRunOf level.now (before_of sched T) run × AreCounts T level.now.jobs.now
        (slots_of level.now.given.now level.now.slots) run counts) }
{
    let got = services_by(alloc, level, sched)?;
    Ok(counts_of(level.tasks, level.jobs, level.given, level.slots, &got))
}

/// The counts of a run in which each job gets these slots before its deadline moment.
fn counts_of(tasks: &[Task], jobs: &[Job], given: &[Window], slots: u64, got: &[u64]) -> Counts
    requires named { AreNamed (sporadic_tasks tasks.now) jobs.now }
    requires in_jitter { AreInJitter (sporadic_tasks tasks.now) jobs.now }
    requires windows { AreWindows given.now slots }
    requires long { length got.now ≡ length jobs.now }
    ensures { let T = sporadic_tasks tasks.now in
        (run : List (Option ℕ)) → length run ≡ slots → AreServices T jobs.now run got.now →
        AreCounts T jobs.now (slots_of given.now slots) run result }
{
    let missed = find_missed(tasks, jobs, slots, got);
    Counts {
        given: slots_given(given),
        released: jobs_before(jobs, slots),
        missed: missed.count,
        first: missed.first,
    }
}

/// The number of jobs that miss in a run of spans: their deadline moment is within the run, and
/// they got fewer slots than their work before it.
pub fn misses(
    alloc: Global,
    jobs: &[Job],
    tasks: &[Task],
    spans: &[Span],
) -> Result<u64, AllocError>
    requires named { AreNamed (sporadic_tasks tasks.now) jobs.now }
    requires in_jitter { AreInJitter (sporadic_tasks tasks.now) jobs.now }
    requires released { HoldsReleased jobs.now (run_of spans.now) }
    requires spans { AreSpans spans.now (length (run_of spans.now)) }
    ensures number { let T = sporadic_tasks tasks.now in let run = run_of spans.now in
        IfOk result (λ n. n ≡ count_below (is_missed T jobs.now run) (length jobs.now)) }
    ensures none { let T = sporadic_tasks tasks.now in
        IfOk result (λ n. (n ≡ 0) ↔ NoneMissed T jobs.now (run_of spans.now)) }
{
    let end = end_of_run(spans);
    let got = services_in(alloc, tasks, jobs, spans)?;
    Ok(find_missed(tasks, jobs, end, &got).count)
}

/// The missed job with the earliest deadline moment in a run of spans, and of several the first in
/// the list.
pub fn first_miss(
    alloc: Global,
    jobs: &[Job],
    tasks: &[Task],
    spans: &[Span],
) -> Result<Option<Miss>, AllocError>
    requires named { AreNamed (sporadic_tasks tasks.now) jobs.now }
    requires in_jitter { AreInJitter (sporadic_tasks tasks.now) jobs.now }
    requires released { HoldsReleased jobs.now (run_of spans.now) }
    requires spans { AreSpans spans.now (length (run_of spans.now)) }
    ensures { let T = sporadic_tasks tasks.now in
        IfOk result (λ miss. IsFirstMiss T jobs.now (run_of spans.now) miss) }
{
    let end = end_of_run(spans);
    let got = services_in(alloc, tasks, jobs, spans)?;
    Ok(find_missed(tasks, jobs, end, &got).first)
}

/// The number of slots of windows.
pub fn slots_given(windows: &[Window]) -> u64
    requires { AreWindows windows.now (2 ^ 64 - 1) }
    ensures { (n : ℕ) → AreWindows windows.now n →
        result ≡ slots_between (slots_of windows.now n) 0 n }
{
    let mut given = 0;
    for window in windows {
        given += window.until - window.from;
    }
    given
}

/// The number of jobs that are released before a moment.
fn jobs_before(jobs: &[Job], moment: u64) -> u64
    ensures { result ≡ count_below (is_early jobs.now moment) (length jobs.now) }
{
    let mut released = 0;
    for job in jobs {
        if job.release < moment {
            released += 1;
        }
    }
    released
}

/// The slots of a span before a moment.
pub(crate) fn slots_before(span: &Span, moment: u128) -> u64
    requires { span.now.from ≤ span.now.until }
    ensures slots { result + min moment span.now.from ≡ min moment span.now.until }
    ensures fits { span.now.until < 2 ^ 64 }
{
    if span.until as u128 <= moment {
        return span.until - span.from;
    }
    if moment <= span.from as u128 {
        return 0;
    }
    moment as u64 - span.from
}

/// The jobs that miss in a run: how many they are, and the first of them.
#[derive(Clone, Copy)]
pub(crate) struct Missed {
    pub count: u64,
    pub first: Option<Miss>,
}

/// A job misses where its deadline moment is within the run, and it got fewer slots than its work
/// before it. The first has the earliest deadline moment, and of several is the first in the list.
/// The run ends at `end`.
pub(crate) fn find_missed(tasks: &[Task], jobs: &[Job], end: u64, got: &[u64]) -> Missed
    requires named { AreNamed (sporadic_tasks tasks.now) jobs.now }
    requires in_jitter { AreInJitter (sporadic_tasks tasks.now) jobs.now }
    requires long { length got.now ≡ length jobs.now }
    ensures count { let T = sporadic_tasks tasks.now in
        (run : List (Option ℕ)) → length run ≡ end → AreServices T jobs.now run got.now →
        result.count ≡ count_below (is_missed T jobs.now run) (length jobs.now) }
    ensures none { let T = sporadic_tasks tasks.now in
        (run : List (Option ℕ)) → length run ≡ end → AreServices T jobs.now run got.now →
        (result.count ≡ 0) ↔ NoneMissed T jobs.now run }
    ensures first { let T = sporadic_tasks tasks.now in
        (run : List (Option ℕ)) → length run ≡ end → AreServices T jobs.now run got.now →
        IsFirstMiss T jobs.now run result.first }
{
    let mut count = 0;
    let mut first = None;
    for place in 0..jobs.len() {
        if let Some(miss) = find_miss(tasks, jobs, end, got, place) {
            count += 1;
            first = Some(earlier_miss(first, miss));
        }
    }
    Missed { count, first }
}

// None exactly where the job at `place` does not miss.
fn find_miss(tasks: &[Task], jobs: &[Job], end: u64, got: &[u64], place: usize) -> Option<Miss>
    requires named { AreNamed (sporadic_tasks tasks.now) jobs.now }
    requires in_jitter { AreInJitter (sporadic_tasks tasks.now) jobs.now }
    requires long { length got.now ≡ length jobs.now }
    requires is_job { place < length jobs.now }
    ensures { let T = sporadic_tasks tasks.now in
        (run : List (Option ℕ)) → length run ≡ end → AreServices T jobs.now run got.now →
        MatchOption result (is_missed T jobs.now run place ≡ false) (λ miss.
        (is_missed T jobs.now run place ≡ true) × (miss ≡ miss_of T jobs.now run place)) }
{
    let job = jobs[place];
    let got = got[place];
    if got >= job.work {
        return None;
    }
    let moment = deadline_moment(tasks, &job);
    if moment > end as u128 {
        return None;
    }
    Some(Miss {
        task: job.task,
        release: job.release,
        deadline: moment as u64,
        got,
        work: job.work,
    })
}

/// Where a run of spans ends.
fn end_of_run(spans: &[Span]) -> u64
    requires { AreSpans spans.now (length (run_of spans.now)) }
    ensures { result ≡ length (run_of spans.now) }
{
    match spans.last() {
        Some(last) => last.until,
        None => 0,
    }
}
