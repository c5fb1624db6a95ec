use crate::helpers::{expect, expect_at, five_long_tasks, task, two_tasks};
use period_choice::{Choice, choose};
use slot_model::{Sched, Task};

#[test]
fn least_shares(rt: HostRuntime) {
    let tasks = two_tasks(&rt);
    for (low, high, period, budget) in [(5, 14, 7, 2), (10, 11, 10, 3), (14, 14, 14, 4)] {
        let found = choose(Sched::Edf, &tasks, low, high);
        expect_at(&rt, (low, high), found, Choice::Best { period, budget });
    }
}

#[test]
fn no_period_that_passes(rt: HostRuntime) {
    let tasks = [task(&rt, 2, 2, 2), task(&rt, 3, 3, 1)];
    for sched in [Sched::Edf, Sched::Rm, Sched::Dm, Sched::Listed] {
        let found = choose(sched, &tasks, 2, 100);
        expect_at(&rt, sched, found, Choice::Nothing { over: 99, wide: 0 });
    }
    let long = five_long_tasks(&rt);
    let found = choose(Sched::Edf, &long, 1_000_000, 1_000_009);
    expect(&rt, found, Choice::Nothing { over: 0, wide: 10 });
}

#[test]
fn no_budget_for_no_tasks(rt: HostRuntime) {
    let none: [Task; 0] = [];
    let found = choose(Sched::Rm, &none, 3, 9);
    let first = Choice::Best {
        period: 3,
        budget: 0,
    };
    expect(&rt, found, first);
}
