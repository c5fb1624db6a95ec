use crate::helpers::{
    expect, expect_at, five_long_tasks, late_task, task, two_late_tasks, two_tasks,
};
use edf_demand::{DemandLevel, demand, horizon};
use slot_model::Task;
use window_terms::Term;

#[test]
fn demand_of_windows(rt: HostRuntime) {
    let (two, late) = (two_tasks(&rt), two_late_tasks(&rt));
    let early = [task(&rt, 10, 4, 2)];
    let cases: [(&[Task], u128, u128); 14] = [
        (&two, 0, 0),
        (&two, 49, 0),
        (&two, 50, 7),
        (&two, 75, 16),
        (&two, 150, 39),
        (&early, 3, 0),
        (&early, 4, 2),
        (&early, 13, 2),
        (&early, 14, 4),
        (&late, 44, 0),
        (&late, 45, 7),
        (&late, 75, 16),
        (&late, 95, 23),
        (&[], u128::MAX, 0),
    ];
    for (tasks, window, work) in cases {
        expect_at(&rt, window, demand(tasks, window), Some(work));
    }
}

#[test]
fn demand_near_the_end_of_u128(rt: HostRuntime) {
    let whole = task(&rt, 1, 1, 1);
    let half = task(&rt, 2, 2, 1);
    expect(&rt, demand(&[whole], u128::MAX), Some(u128::MAX));
    expect(&rt, demand(&[half, half], u128::MAX), Some(u128::MAX - 1));
    expect(&rt, demand(&[whole, half], u128::MAX), None);
}

#[test]
fn demand_by_terms(rt: HostRuntime) {
    let tasks = [
        late_task(&rt, 50, 50, 7, 5),
        late_task(&rt, 50, 46, 2, 1),
        task(&rt, 75, 75, 9),
    ];
    let mut terms = [Term::none(); 3];
    let whole = DemandLevel::gather(&tasks, &mut terms);
    expect(&rt, (whole.gathered.terms, whole.gathered.tasks), (2, 3));
    let mut term = [Term::none()];
    let part = DemandLevel::gather(&tasks, &mut term);
    expect(&rt, (part.gathered.terms, part.gathered.tasks), (1, 2));
    for (window, work) in [
        (44, 0),
        (45, 9),
        (75, 18),
        (95, 27),
        (8_589_934_591, 2_576_980_368),
        (8_589_934_592, 2_576_980_368),
        (1_000_000_000_000_000_000, 299_999_999_999_999_997),
        (u64::MAX as u128, 5_534_023_222_112_865_480),
        (1 << 127, 51_042_355_038_140_769_519_506_191_114_765_231_707),
    ] {
        expect_at(&rt, window, whole.demand(window), Some(work));
        expect_at(&rt, window, part.demand(window), Some(work));
    }
}

#[test]
fn horizons(rt: HostRuntime) {
    let tasks = two_tasks(&rt);
    expect(&rt, horizon(&tasks, 10), Some(160));
    expect(&rt, horizon(&tasks, 1), Some(151));
    expect(&rt, horizon(&[], 10), Some(20));
    let long = five_long_tasks(&rt);
    expect(&rt, horizon(&long, 1_000_000), None);
}
