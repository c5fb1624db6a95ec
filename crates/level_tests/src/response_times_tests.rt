ghost use Rattle.std.specs.Prelude.{◌<◌, ◌≤◌, length};

use crate::helpers::{MEMORY, assert_jobs, expect_at, periodic, task, two_late_tasks, two_tasks};
use response_times::{replay, response, response_jobs};
use slot_model::{Sched, Task};
use std::alloc::Global;
use std::process::Abort;
use supply_bound::{Full, Periodic, Supply};

#[test]
fn greatest_responses_of_two_tasks(rt: HostRuntime) {
    let tasks = two_tasks(&rt);
    let jittery = two_late_tasks(&rt);
    let four = periodic(&rt, 10, 4);
    for (tasks, first, second) in [(&tasks, 25, 46), (&jittery, 25, 65)] {
        expect_at(
            &rt,
            "first",
            response(Sched::Rm, tasks, 0, &four),
            Some(first),
        );
        expect_at(
            &rt,
            "second",
            response(Sched::Rm, tasks, 1, &four),
            Some(second),
        );
    }
    let three = periodic(&rt, 10, 3);
    expect_at(&rt, "short", response(Sched::Rm, &tasks, 1, &three), None);
    expect_at(&rt, "full", response(Sched::Dm, &tasks, 1, &Full), Some(16));
}

#[test]
fn jobs_of_the_worst_case(rt: HostRuntime) {
    let jobs = response_jobs(rt.alloc(), &two_tasks(&rt), 4, 46).expect(&rt, MEMORY);
    assert_jobs(&rt, &jobs, &[(0, 4, 7, 0), (1, 4, 9, 0)]);
}

/// What the replay under rate monotonic shows. None where the task has no response, or one that is
/// too long to be replayed.
fn replayed(
    rt: &impl Abort,
    alloc: Global,
    tasks: &[Task],
    i: u32,
    supply: &Periodic,
) -> Option<u64>
    requires i_named { i < length tasks.now }
    requires few { length tasks.now ≤ 256 }
{
    let span = response(Sched::Rm, tasks, i, supply)?;
    if span > 1_000_000 || supply.start() > 1_000_000 - span {
        return None;
    }
    Some(replay(alloc, Sched::Rm, tasks, i, supply).expect(rt, MEMORY))
}

#[test]
fn replays_show_the_responses(rt: HostRuntime) {
    let four = periodic(&rt, 10, 4);
    let tasks = two_tasks(&rt);
    expect_at(
        &rt,
        "first",
        replayed(&rt, rt.alloc(), &tasks, 0, &four),
        Some(25),
    );
    expect_at(
        &rt,
        "second",
        replayed(&rt, rt.alloc(), &tasks, 1, &four),
        Some(46),
    );
    expect_at(
        &rt,
        "late",
        replayed(&rt, rt.alloc(), &two_late_tasks(&rt), 1, &four),
        Some(65),
    );
    let long = [task(&rt, 1_000_000_000, 1_000_000_000, 999_999)];
    expect_at(
        &rt,
        "long",
        replayed(&rt, rt.alloc(), &long, 0, &periodic(&rt, 4, 2)),
        None,
    );
}
