use crate::helpers::{OUT, expect, expect_at, five_long_tasks, task};
use edp_supply::{ExplicitDeadline, least_explicit};
use least_budget::{Least, Tested, test};
use slot_model::{Sched, Short};
use std::process::Abort;
use supply_bound::Supply;

fn explicit(rt: &impl Abort, period: u64, budget: u64, deadline: u64) -> ExplicitDeadline {
    ExplicitDeadline::new(period, budget, deadline).expect(rt, OUT)
}

#[test]
fn resources_in_range(rt: HostRuntime) {
    for (period, budget, deadline) in [
        (0, 0, 0),
        (5, 0, 0),
        (5, 0, 6),
        (5, 4, 3),
        (1_000_000_001, 1, 1),
        (u64::MAX, u64::MAX, u64::MAX),
    ] {
        let made = ExplicitDeadline::new(period, budget, deadline);
        expect_at(&rt, (period, budget, deadline), made, None);
    }
    for (period, budget, deadline) in [
        (1, 0, 1),
        (1, 1, 1),
        (5, 3, 3),
        (1_000_000_000, 0, 1),
        (1_000_000_000, 1_000_000_000, 1_000_000_000),
    ] {
        let made = ExplicitDeadline::new(period, budget, deadline);
        expect_at(&rt, (period, budget, deadline), made.is_some(), true);
    }
}

#[test]
fn least_slots_of_windows(rt: HostRuntime) {
    for (budget, deadline, window, slots) in [
        (3, 5, 0, 0),
        (3, 5, 9, 0),
        (3, 5, 10, 1),
        (3, 5, 12, 3),
        (3, 5, 19, 3),
        (3, 5, 20, 4),
        (3, 5, 22, 6),
        (3, 3, 7, 0),
        (3, 3, 8, 1),
        (3, 3, 10, 3),
        (3, 3, 17, 3),
        (3, 3, 18, 4),
    ] {
        let least = explicit(&rt, 10, budget, deadline).least(window);
        expect_at(&rt, (budget, deadline, window), least, slots);
    }
}

#[test]
fn windows_that_reach_a_bound(rt: HostRuntime) {
    for (budget, slots, window) in [
        (3, 0, Some(0)),
        (3, 1, Some(10)),
        (3, 3, Some(12)),
        (3, 4, Some(20)),
        (3, 16, Some(60)),
        (3, u128::MAX, None),
        (0, 0, Some(0)),
        (0, 1, None),
    ] {
        let reached = explicit(&rt, 10, budget, 5).reach(slots);
        expect_at(&rt, (budget, slots), reached, window);
    }
}

#[test]
fn worst_pattern(rt: HostRuntime) {
    let part = explicit(&rt, 5, 2, 4);
    let given = [
        true, true, false, false, false, false, false, true, true, false, false, false, true, true,
        false,
    ];
    for (x, slot) in given.iter().enumerate() {
        expect_at(&rt, x, part.worst(x as u64), *slot);
    }
    expect(&rt, (part.start(), part.cycle()), (2, 5));
}

#[test]
fn budgets_by_a_deadline(rt: HostRuntime) {
    let control = [task(&rt, 400, 400, 40)];
    for (deadline, budget) in [(200, 40), (40, 27), (20, 20)] {
        let found = least_explicit(Sched::Edf, &control, 200, deadline);
        expect_at(&rt, deadline, found, Least::Budget(budget));
    }
    for (sched, short) in [
        (Sched::Edf, Short::At(400)),
        (Sched::Rm, Short::Task(0)),
        (Sched::Listed, Short::Task(0)),
    ] {
        let found = least_explicit(sched, &control, 200, 19);
        expect_at(&rt, sched, found, Least::Over(short));
    }
    let long = five_long_tasks(&rt);
    let found = least_explicit(Sched::Edf, &long, 1_000_000, 500_000);
    expect(&rt, found, Least::Wide);
}

#[test]
fn tests_at_the_least_budget(rt: HostRuntime) {
    let control = [task(&rt, 400, 400, 40)];
    for (sched, budget, want) in [
        (Sched::Edf, 26, Tested::Short(Short::At(400))),
        (Sched::Edf, 27, Tested::Passes),
        (Sched::Dm, 26, Tested::Short(Short::Task(0))),
        (Sched::Dm, 27, Tested::Passes),
    ] {
        let supply = explicit(&rt, 200, budget, 40);
        expect_at(&rt, (sched, budget), test(sched, &control, &supply), want);
    }
}
