ghost use Rattle.std.specs.Prelude.{◌≡◌, ◌^◌, ◌<◌, length, IfOk};
ghost use Rattle.slot_model.specs.Miss.{HoldsReleased};
ghost use Rattle.slot_model.specs.Release.{LegalRelease};
ghost use Rattle.slot_model.specs.Task.{sporadic_tasks};
ghost use Rattle.guest_sched.specs.Spans.{AreWindows, AreSpans, run_of};

use guest_sched::{Keep, ReleasedLevel, Span, Window, run_spans};
use slot_model::{Edf, Job, Miss, Task, is_legal};
use span_counts::{Counts, count_level, count_pending, first_miss, misses};
use std::alloc::{AllocError, Global};
use std::test::Fail;

fn job(release: u64) -> Job {
    Job {
        task: 0,
        release,
        work: 3,
        early: 0,
    }
}

/// The schedule over 22 slots.
fn spans_of(
    alloc: Global,
    tasks: &[Task],
    jobs: &[Job],
    given: &[Window],
) -> Result<Vec<Span>, AllocError>
    requires legal { LegalRelease (sporadic_tasks tasks.now) jobs.now }
    requires few { length jobs.now < 2 ^ 32 }
    requires windows { AreWindows given.now 22 }
    ensures spans { IfOk result (λ spans. AreSpans spans.items 22) }
    ensures long { IfOk result (λ spans. length (run_of spans.items) ≡ 22) }
    ensures released { IfOk result (λ spans. HoldsReleased jobs.now (run_of spans.items)) }
{
    let level = ReleasedLevel {
        keep: Keep::UntilDone,
        tasks,
        jobs,
        given,
        slots: 22,
    };
    run_spans(alloc, &level, &Edf)
}

/// The misses, the first miss and the counts of that schedule, and the number of pairs of a job and
/// a slot at which it is pending.
fn counted(
    alloc: Global,
    tasks: &[Task],
    jobs: &[Job],
    given: &[Window],
) -> Result<(u64, Option<Miss>, Counts, u64), AllocError>
    requires legal { LegalRelease (sporadic_tasks tasks.now) jobs.now }
    requires few { length jobs.now < 2 ^ 32 }
    requires windows { AreWindows given.now 22 }
{
    let spans = spans_of(alloc, tasks, jobs, given)?;
    let missed = misses(alloc, jobs, tasks, &spans)?;
    let first = first_miss(alloc, jobs, tasks, &spans)?;
    let counts = count_level(alloc, tasks, jobs, given, &spans, 22)?;
    let pending = count_pending(alloc, jobs, &spans, 22)?;
    Ok((missed, first, counts, pending))
}

/// One task of 3 in 10 slots. The first job gets 1 slot of its 3 by slot 10, the second all of its
/// slots, and the deadline moment of the third is past the run. The first gets slots 4, 10 and 11,
/// so it is pending from 0 to 12; the second gets 12 to 14, so it is pending from 10 to 15; the
/// third gets nothing before the end.
#[test]
fn a_miss_and_what_else_is_counted(rt: HostRuntime) -> Result<(), Fail> {
    let tasks = [Task::new(10, 10, 3).ok_or("out of range")?];
    let jobs = [job(0), job(10), job(21)];
    let given = [
        Window { from: 4, until: 5 },
        Window {
            from: 10,
            until: 20,
        },
    ];
    assert!(rt; is_legal(&tasks, &jobs));
    let miss = Miss {
        task: 0,
        release: 0,
        deadline: 10,
        got: 1,
        work: 3,
    };
    let counts = Counts {
        given: 11,
        released: 3,
        missed: 1,
        first: Some(miss),
    };
    let counted = counted(rt.alloc(), &tasks, &jobs, &given)?;
    assert!(rt; counted == (1, Some(miss), counts, 12 + 5 + 1));
    Ok(())
}
