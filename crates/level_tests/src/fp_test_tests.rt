ghost use Rattle.std.specs.Prelude.{◌<◌, length};

use crate::helpers::{
    MEMORY, expect, expect_at, five_long_tasks, late_task, periodic, task, two_late_tasks,
    two_tasks,
};
use fp_request::RankedLevel;
use fp_test::{falls, hit, is_hit};
use slot_model::{Sched, Task};
use std::alloc::Global;
use std::process::Abort;
use supply_bound::{Full, Periodic};
use window_terms::Term;

#[test]
fn hits_of_two_tasks(rt: HostRuntime) {
    let tasks = two_tasks(&rt);
    for (sched, i, budget, want) in [
        (Sched::Rm, 0, 4, Some(25)),
        (Sched::Rm, 1, 4, Some(46)),
        (Sched::Rm, 0, 3, Some(35)),
        (Sched::Rm, 1, 3, None),
        (Sched::Listed, 0, 0, None),
    ] {
        let supply = periodic(&rt, 10, budget);
        expect_at(&rt, (i, budget), hit(sched, &tasks, i, &supply), want);
    }
    expect(&rt, hit(Sched::Dm, &tasks, 1, &Full), Some(16));
}

#[test]
fn which_windows_are_hits(rt: HostRuntime) {
    let tasks = two_tasks(&rt);
    let four = periodic(&rt, 10, 4);
    let mut terms = [Term::none(); 2];
    let second = RankedLevel::gather(Sched::Rm, &tasks, &mut terms).task(1);
    for (t, want) in [
        (0, false),
        (45, false),
        (46, true),
        (50, true),
        (51, false),
        (75, true),
        (76, false),
    ] {
        expect_at(&rt, t, is_hit(&second, &four, t), want);
    }
}

#[test]
fn hits_leave_room_for_the_jitter(rt: HostRuntime) {
    let tasks = two_late_tasks(&rt);
    let four = periodic(&rt, 10, 4);
    for (i, want) in [(0, 25), (1, 65)] {
        expect_at(&rt, i, hit(Sched::Rm, &tasks, i, &four), Some(want));
    }
    // at its end, and past it
    for (jitter, want) in [(5, Some(25)), (6, None)] {
        let tasks = [late_task(&rt, 50, 30, 7, jitter)];
        expect_at(&rt, jitter, hit(Sched::Rm, &tasks, 0, &four), want);
    }
}

#[test]
fn hits_of_the_longest_tasks(rt: HostRuntime) {
    let tasks = five_long_tasks(&rt);
    let second = periodic(&rt, 1_000_000, 1);
    for (i, want) in [
        (0, 1_999_999),
        (1, 2_999_999),
        (2, 3_999_999),
        (3, 4_999_999),
        (4, 5_999_999),
    ] {
        expect_at(&rt, i, hit(Sched::Rm, &tasks, i, &second), Some(want));
    }
}

#[test]
fn hits_of_equal_tasks(rt: HostRuntime) {
    let task = task(&rt, 10, 8, 4);
    let tasks = [task, task, task];
    for sched in [Sched::Rm, Sched::Dm, Sched::Listed] {
        expect_at(&rt, sched, hit(sched, &tasks, 0, &Full), Some(4));
        expect_at(&rt, sched, hit(sched, &tasks, 1, &Full), Some(8));
        expect_at(&rt, sched, hit(sched, &tasks, 2, &Full), None);
    }
}

/// The task has no hit, and its windows that fall short are these.
fn expect_falls(
    rt: &impl Abort,
    alloc: Global,
    tasks: &[Task],
    i: u32,
    supply: &Periodic,
    wanted: &[u64],
)
    requires { i < length tasks.now }
{
    match hit(Sched::Rm, tasks, i, supply) {
        Some(t) => expect(rt, Some(t), None),
        None => {
            let found = falls(alloc, Sched::Rm, tasks, i, supply).expect(rt, MEMORY);
            expect(rt, found.as_slice(), wanted);
        }
    }
}

#[test]
fn falls_of_a_task_without_a_hit(rt: HostRuntime) {
    let three = periodic(&rt, 10, 3);
    expect_falls(&rt, rt.alloc(), &two_tasks(&rt), 1, &three, &[1, 65, 76]);
}

#[test]
fn falls_leave_room_for_the_jitter(rt: HostRuntime) {
    let four = periodic(&rt, 10, 4);
    let past_it = [late_task(&rt, 50, 30, 7, 6)];
    expect_falls(&rt, rt.alloc(), &past_it, 0, &four, &[1, 25]);
}
