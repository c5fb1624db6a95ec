ghost use Rattle.std.specs.Prelude.{◌≤◌, length};

use crate::helpers::{MEMORY, assert_jobs, expect, expect_at, job, task, two_late_tasks};
use release_pattern::synchronous_jobs;
use slot_model::{Job, Task};
use std::alloc::{AllocError, Global};

// The jobs of a few tasks in 96 slots from slot 2 on.
fn jobs_of(alloc: Global, tasks: &[Task]) -> Result<Vec<Job>, AllocError>
    requires { length tasks.now ≤ 20 }
{
    synchronous_jobs(alloc, tasks, 2, 96)
}

#[test]
fn the_first_job_has_its_jitter_behind_it(rt: HostRuntime) {
    let jobs = jobs_of(rt.alloc(), &two_late_tasks(&rt)).expect(&rt, MEMORY);
    let wanted = [
        (0, 2, 7, 5),
        (1, 2, 9, 0),
        (0, 47, 7, 0),
        (1, 77, 9, 0),
        (0, 97, 7, 0),
    ];
    assert_jobs(&rt, &jobs, &wanted);
}

// Seventeen at once, two of the last task alone, and the other sixteen.
fn job_at(place: u32) -> Job {
    if place < 17 {
        job(place, 2, 1, 0)
    } else if place == 17 {
        job(16, 42, 1, 0)
    } else if place == 18 {
        job(16, 82, 1, 0)
    } else {
        job(place - 19, 92, 1, 0)
    }
}

// Sixteen tasks of period 90, and a seventeenth of period 40.
#[test]
fn jobs_of_one_moment_stand_by_place(rt: HostRuntime) {
    let mut tasks = [task(&rt, 90, 90, 1); 17];
    tasks[16] = task(&rt, 40, 40, 1);
    let jobs = jobs_of(rt.alloc(), &tasks).expect(&rt, MEMORY);
    expect(&rt, jobs.len(), 35);
    for (place, found) in (0..35u32).zip(jobs.iter()) {
        expect_at(&rt, place, *found, job_at(place));
    }
}
