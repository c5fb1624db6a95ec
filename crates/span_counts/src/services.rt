ghost use Rattle.std.specs.Prelude.{◌≡◌, ℕ, ◌-◌, ◌^◌, ◌<◌, ◌≤◌, min, List, [], Option, length, slice_index, IfOk};
ghost use Rattle.slot_model.specs.Task.{sporadic_tasks, task_at, deadline_of};
ghost use Rattle.slot_model.specs.Order.{before_of};
ghost use Rattle.slot_model.specs.Miss.{AreInJitter, AreNamed, HoldsReleased, IsFirstMiss};
ghost use Rattle.guest_sched.specs.Spans.{AreSpans, run_of};
ghost use Rattle.guest_sched.specs.Levels.{FirstRunOf};
ghost use Rattle.span_counts.specs.Counts.{ServedTo};
ghost use Rattle.span_counts.specs.inner.Services.{AreDues, AreServices};

use crate::counts::{find_missed, slots_before};
use guest_sched::{Follow, ReleasedLevel, Span, follow_by, follow_spans};
use slot_model::{Job, Miss, Sched, Task, deadline_moment};
use std::alloc::{AllocError, Global};

/// The slots that each job gets before its deadline moment, counted as a run is made.
#[derive(Drop)]
pub struct Services {
    /// The deadline moment of each job, or the last moment of all.
    dues: Vec<u64>,
    /// The slots that each job got before that.
    got: Vec<u64>,
}

impl Services {
    /// Before the first slot.
    fn new(alloc: Global, tasks: &[Task], jobs: &[Job]) -> Result<Services, AllocError>
        requires named { AreNamed (sporadic_tasks tasks.now) jobs.now }
        requires in_jitter { AreInJitter (sporadic_tasks tasks.now) jobs.now }
        ensures dues { let T = sporadic_tasks tasks.now in
            IfOk result (λ s. AreDues T jobs.now s.dues.items) }
        ensures begins { IfOk result (λ s. ServedTo (slice_index s.dues.items)
            (length s.dues.items) [] 0 s.got.items) }
    {
        let mut dues = Vec::with_capacity(alloc, jobs.len())?;
        for job in jobs {
            dues.push(due_moment(tasks, job))?;
        }
        let got = vec![in alloc; 0; jobs.len()]?;
        Ok(Services { dues, got })
    }
}

impl Follow for Services {
    ghost use Rattle.std.specs.Prelude.{◌<◌, length, slice_index};
    ghost use Rattle.span_counts.specs.Counts.{ServedTo};

    ghost follows = { λ s run.
        ServedTo (slice_index s.dues.items) (length s.dues.items) run (length run) s.got.items };

    ghost numbers = { λ s. s.dues.items };

    ghost takes = { λ s j. j < length s.dues.items };

    fn add(&mut self, span: Span) -> Result<(), AllocError> {
        if let Some(job) = span.job {
            let place = job as usize;
            let before = self.got[place];
            self.got[place] = before + slots_before(&span, self.dues[place] as u128);
        }
        Ok(())
    }
}

/// The deadline moment of a job, or the last moment of all.
fn due_moment(tasks: &[Task], job: &Job) -> u64
    requires named { job.now.task < length tasks.now }
    requires in_jitter { job.now.early ≤ (task_at (sporadic_tasks tasks.now) job.now.task).jitter }
    ensures { result ≡ min (deadline_of (sporadic_tasks tasks.now) job.now) (2 ^ 64 - 1) }
{
    u64::try_from(deadline_moment(tasks, job)).unwrap_or(u64::MAX)
}

/// The slots that each job gets before its deadline moment in a run of spans.
pub(crate) fn services_in(
    alloc: Global,
    tasks: &[Task],
    jobs: &[Job],
    spans: &[Span],
) -> Result<Vec<u64>, AllocError>
    requires named { AreNamed (sporadic_tasks tasks.now) jobs.now }
    requires in_jitter { AreInJitter (sporadic_tasks tasks.now) jobs.now }
    requires released { HoldsReleased jobs.now (run_of spans.now) }
    requires spans { AreSpans spans.now (length (run_of spans.now)) }
    requires fits { length (run_of spans.now) < 2 ^ 64 }
    ensures { let T = sporadic_tasks tasks.now in
        IfOk result (λ got. AreServices T jobs.now (run_of spans.now) got.items) }
{
    let mut services = Services::new(alloc, tasks, jobs)?;
    follow_spans(&mut services, spans)?;
    Ok(services.got)
}

/// The slots that each job gets before its deadline moment in the schedule of a level by a
/// scheduler. No span of the run is kept.
pub(crate) fn services_by(
    alloc: Global,
    level: &ReleasedLevel,
    sched: Sched,
) -> Result<Vec<u64>, AllocError>
    ensures long { IfOk result (λ got. length got.items ≡ length level.now.jobs.now) }
    ensures served { let T = sporadic_tasks level.now.tasks.now in
        IfOk result (λ got. (run : List (Option ℕ)) × FirstRunOf level.now (before_of sched T) run
        × (length run ≡ level.now.slots) × AreServices T level.now.jobs.now run got.items) }
{
    let mut services = Services::new(alloc, level.tasks, level.jobs)?;
    follow_by(alloc, level, sched, &mut services)?;
    // the slots of a level fit into 64 bits
    let _slots = level.slots;
    Ok(services.got)
}

/// The first miss of the schedule of a level by a scheduler: the missed job with the earliest
/// deadline moment, and of several the first in the list. No span of the run is kept.
pub fn first_miss_by(
    alloc: Global,
    level: &ReleasedLevel,
    sched: Sched,
) -> Result<Option<Miss>, AllocError>
    ensures { let T = sporadic_tasks level.now.tasks.now in
        IfOk result (λ miss. (run : List (Option ℕ)) × FirstRunOf level.now (before_of sched T) run
        × IsFirstMiss T level.now.jobs.now run miss) }
{
    let got = services_by(alloc, level, sched)?;
    Ok(find_missed(level.tasks, level.jobs, level.slots, &got).first)
}
