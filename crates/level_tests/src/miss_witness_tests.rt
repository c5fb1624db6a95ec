ghost use Rattle.std.specs.Prelude.{◌≡◌, ◌^◌, ◌<◌, ◌≤◌, length};
ghost use Rattle.slot_model.specs.declared.task.TheConstants.{LIMIT};

use crate::helpers::{MEMORY, assert_jobs, expect, expect_at, task, two_late_tasks, two_tasks};
use least_budget::{Least, least_budget};
use miss_witness::{Defeat, witness, witness_jobs};
use slot_model::{Sched, Task};

fn defeat(budget: u64, span: u128, task: Option<u32>) -> Defeat
    ensures start { result.start ≡ budget }
    ensures span { result.span ≡ span }
{
    Defeat {
        budget,
        start: budget,
        span,
        task,
    }
}

/// The defeat of the budget one below the least.
fn defeat_of(sched: Sched, tasks: &[Task], period: u64) -> Option<Defeat>
    requires few { length tasks.now < 2 ^ 32 }
    requires some_period { 1 ≤ period }
    requires in_limit { period ≤ LIMIT }
{
    match least_budget(sched, tasks, period) {
        Least::Budget(least) if least >= 1 => Some(witness(sched, tasks, period, least)),
        _ => None,
    }
}

#[test]
fn defeats_of_the_next_smaller_budget(rt: HostRuntime) {
    let tasks = two_tasks(&rt);
    let jittery = two_late_tasks(&rt);
    for (sched, tasks, wanted) in [
        (Sched::Edf, &tasks, defeat(2, 75, None)),
        (Sched::Rm, &tasks, defeat(3, 75, Some(1))),
        (Sched::Edf, &jittery, defeat(2, 45, None)),
    ] {
        expect_at(&rt, sched, defeat_of(sched, tasks, 10), Some(wanted));
    }
    let whole = [task(&rt, 5, 5, 5)];
    expect(
        &rt,
        defeat_of(Sched::Edf, &whole, 5),
        Some(defeat(4, 5, None)),
    );
}

#[test]
fn jobs_by_release_and_then_by_place(rt: HostRuntime) {
    let jobs = witness_jobs(rt.alloc(), &two_tasks(&rt), &defeat(2, 75, None)).expect(&rt, MEMORY);
    assert_jobs(&rt, &jobs, &[(0, 2, 7, 0), (1, 2, 9, 0), (0, 52, 7, 0)]);
}

#[test]
fn the_first_job_has_its_jitter_behind_it(rt: HostRuntime) {
    let jobs = witness_jobs(rt.alloc(), &two_late_tasks(&rt), &defeat(2, 96, None)).expect(
        &rt, MEMORY,
    );
    let wanted = [
        (0, 2, 7, 5),
        (1, 2, 9, 0),
        (0, 47, 7, 0),
        (1, 77, 9, 0),
        (0, 97, 7, 0),
    ];
    assert_jobs(&rt, &jobs, &wanted);
}
