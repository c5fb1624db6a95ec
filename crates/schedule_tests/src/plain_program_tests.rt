//! Runs from event to event beside a plain program that goes slot by slot, over systems that a
//! small generator makes.

ghost use Rattle.std.specs.Prelude.{◌≡◌, ◌<◌, ◌≤◌, length};
ghost use Rattle.slot_model.specs.Task.{sporadic_tasks, task_at, deadline_of};
ghost use Rattle.slot_model.specs.Order.{edf_before};
ghost use Rattle.slot_model.specs.EdfOrder.{edf_laws};

use guest_sched::{Keep, ReleasedLevel, Span, run_spans, windows_of};
use slot_model::{Edf, Job, Order, Task, deadline_moment, is_legal};
use std::alloc::{AllocError, Global};
use std::test::Fail;

/// Numbers that look random.
#[derive(Drop)]
pub struct Generator {
    pub state: u64,
}

impl Generator {
    /// A number below `bound`.
    pub fn below(&mut self, bound: u64) -> u64
        requires { 1 ≤ bound }
        ensures { result < bound }
    {
        self.state = self
            .state
            .wrapping_mul(6_364_136_223_846_793_005)
            .wrapping_add(1_442_695_040_888_963_407);
        (self.state >> 33) % bound
    }
}

/// What one level is given.
#[derive(Drop)]
struct Level {
    tasks: Vec<Task>,
    jobs: Vec<Job>,
    /// The deadline moment of each job.
    moments: Vec<u64>,
    slots: Vec<bool>,
}

fn level_of(alloc: Global, from: &mut Generator) -> Result<Level, AllocError> {
    let mut level = Level {
        tasks: Vec::new(alloc),
        jobs: Vec::new(alloc),
        moments: Vec::new(alloc),
        slots: Vec::new(alloc),
    };
    for place in 0..1 + from.below(4) {
        let work = 1 + from.below(4);
        let jitter = from.below(3);
        let deadline = work.saturating_add(jitter).saturating_add(from.below(6));
        let period = deadline.saturating_add(from.below(4));
        if let Some(task) = Task::with_jitter(period, deadline, work, jitter) {
            level.tasks.push(task)?;
            push_jobs(&mut level, from, place as u32, &task)?;
        }
    }
    let density = 1 + from.below(4);
    for _ in 0..from.below(60) {
        level.slots.push(from.below(4) < density)?;
    }
    Ok(level)
}

/// Jobs of one task, the first of which may have arrived before slot 0.
fn push_jobs(
    level: &mut Level,
    from: &mut Generator,
    place: u32,
    task: &Task,
) -> Result<(), AllocError> {
    let mut arrival = from.below(6);
    for _ in 0..from.below(7) {
        let early = from.below(task.jitter.saturating_add(1));
        level.jobs.push(Job {
            task: place,
            release: arrival.saturating_add(early),
            work: 1 + from.below(task.work),
            early,
        })?;
        level.moments.push(arrival.saturating_add(task.deadline))?;
        arrival = arrival
            .saturating_add(task.period)
            .saturating_add(from.below(5));
    }
    Ok(())
}

/// Whether job `place` is pending at slot `x`, where it got so many slots before.
fn is_pending(level: &Level, got: &[u64], is_server: bool, place: usize, x: u64) -> bool {
    let Some(job) = level.jobs.get(place) else {
        return false;
    };
    let Some(moment) = level.moments.get(place) else {
        return false;
    };
    let Some(got) = got.get(place) else {
        return false;
    };
    job.release <= x && *got < job.work && !(is_server && *moment <= x)
}

/// Whether a pending job has an earlier deadline moment than job `place`.
fn is_beaten(level: &Level, got: &[u64], is_server: bool, place: usize, x: u64) -> bool {
    for other in 0..level.jobs.len() {
        if is_pending(level, got, is_server, other, x)
            && level.moments.get(other) < level.moments.get(place)
        {
            return true;
        }
    }
    false
}

/// The job that has slot `x`: of those that are pending and not beaten the first in the list.
fn chosen(level: &Level, got: &[u64], is_server: bool, x: u64) -> Option<u32> {
    for place in 0..level.jobs.len() {
        if is_pending(level, got, is_server, place, x)
            && !is_beaten(level, got, is_server, place, x)
        {
            return u32::try_from(place).ok();
        }
    }
    None
}

/// The run, slot by slot.
fn plain_run(
    alloc: Global,
    level: &Level,
    is_server: bool,
) -> Result<Vec<Option<u32>>, AllocError> {
    let mut got = vec![in alloc; 0u64; level.jobs.len()]?;
    let mut run = Vec::new(alloc);
    for (x, given) in level.slots.iter().enumerate() {
        let held = if *given {
            chosen(level, &got, is_server, x as u64)
        } else {
            None
        };
        if let Some(place) = held {
            if let Some(slots) = got.get_mut(place as usize) {
                *slots = slots.saturating_add(1);
            }
        }
        run.push(held)?;
    }
    Ok(run)
}

/// Whether the spans join, change their job where they do, and hold what the run holds.
fn are_the_run(spans: &[Span], run: &[Option<u32>]) -> bool {
    let mut from = 0;
    let mut before: Option<Option<u32>> = None;
    for span in spans {
        if span.from != from || span.until <= from || before == Some(span.job) {
            return false;
        }
        for x in span.from..span.until {
            if run.get(x as usize) != Some(&span.job) {
                return false;
            }
        }
        from = span.until;
        before = Some(span.job);
    }
    from == run.len() as u64
}

/// Earliest deadline first as an order that gives no keys.
struct WithoutKeys;

impl Order for WithoutKeys {
    ghost goes = { λ s tasks a b. edf_before tasks a b };

    fn before(&self, tasks: &[Task], a: &Job, b: &Job) -> bool {
        deadline_moment(tasks, a) < deadline_moment(tasks, b)
    }

    ghost laws = { λ s. edf_laws };
}

fn keep_of(is_server: bool) -> Keep {
    if is_server {
        Keep::UntilDeadline
    } else {
        Keep::UntilDone
    }
}

/// Whether both programs agree on a level, and None where its jobs are not legal.
fn agree<O: Order>(
    alloc: Global,
    order: &O,
    level: &Level,
    is_server: bool,
) -> Result<Option<bool>, AllocError> {
    if !is_legal(&level.tasks, &level.jobs) || level.jobs.len() > 1000 {
        return Ok(None);
    }
    let windows = windows_of(alloc, &level.slots)?;
    let released = ReleasedLevel {
        keep: keep_of(is_server),
        tasks: &level.tasks,
        jobs: &level.jobs,
        given: &windows,
        slots: level.slots.len() as u64,
    };
    let spans = run_spans(alloc, &released, order)?;
    let run = plain_run(alloc, level, is_server)?;
    Ok(Some(are_the_run(&spans, &run)))
}

#[test]
fn spans_are_those_of_a_plain_program(rt: HostRuntime) -> Result<(), Fail> {
    let alloc = rt.alloc();
    let mut from = Generator { state: 1 };
    let mut compared = 0u32;
    for _ in 0..400 {
        let level = level_of(alloc, &mut from)?;
        for is_server in [false, true] {
            let by_keys = agree(alloc, &Edf, &level, is_server)?;
            let without = agree(alloc, &WithoutKeys, &level, is_server)?;
            if let (Some(same), Some(also)) = (by_keys, without) {
                assert!(rt; same && also);
                compared = compared.saturating_add(1);
            }
        }
    }
    assert!(rt; compared == 800);
    Ok(())
}
