ghost use Rattle.std.specs.Prelude.{◌^◌, ◌-◌, ◌≤◌};

use crate::helpers::{
    MEMORY, OUT, expect, expect_at, five_rates, periodic, task, two_late_tasks, two_tasks,
};
use edf_demand::{DemandLevel, horizon};
use edf_test::{LinedLevel, cover, first_short, first_short_by, is_short, last_short_by, passes};
use slot_model::Task;
use std::alloc::Global;
use std::process::Abort;
use supply_bound::{Full, Supply};
use window_terms::Term;

#[test]
fn short_points_of_a_periodic_resource(rt: HostRuntime) {
    let (two, late) = (two_tasks(&rt), two_late_tasks(&rt));
    for (tasks, budget, window, short) in [
        (&two, 3, 160, None),
        (&two, 2, 0, None),
        (&two, 2, 74, None),
        (&two, 2, 75, Some(75)),
        (&two, 2, 160, Some(75)),
        (&late, 3, 160, None),
        (&late, 2, 160, Some(45)),
    ] {
        let supply = periodic(&rt, 10, budget);
        let found = first_short(tasks, &supply, window);
        expect_at(&rt, (budget, window), found, short);
        expect_at(
            &rt,
            (budget, window),
            passes(tasks, &supply, window),
            short.is_none(),
        );
    }
}

#[test]
fn short_points_of_a_full_supply(rt: HostRuntime) {
    let tasks = [task(&rt, 2, 2, 2), task(&rt, 3, 3, 1)];
    for (period, window, short) in [
        (2, 2, None),
        (2, 3, None),
        (2, 4, Some(4)),
        (2, u128::MAX, Some(4)),
        (100, 2, None),
        (100, 3, None),
        (100, 4, Some(4)),
        (100, u128::MAX, Some(4)),
    ] {
        let found = first_short(&tasks, &periodic(&rt, period, period), window);
        expect_at(&rt, (period, window), found, short);
    }
    // two deadlines fall at 20, and together they ask for 21 slots
    let together = [task(&rt, 10, 10, 5), task(&rt, 20, 20, 11)];
    expect(&rt, first_short(&together, &Full, 1000), Some(20));
    expect(&rt, first_short(&[], &Full, u128::MAX), None);
    expect(&rt, passes(&[], &Full, u128::MAX), true);
}

#[test]
fn a_supply_that_gives_nothing(rt: HostRuntime) {
    let tasks = [task(&rt, 1_000_000_000, 1_000_000_000, 1)];
    let nothing = periodic(&rt, 5, 0);
    expect(
        &rt,
        first_short(&tasks, &nothing, u128::MAX),
        Some(1_000_000_000),
    );
    expect(&rt, passes(&tasks, &nothing, 999_999_999), true);
}

/// The cover is of these points; without points there is none.
fn expect_cover<S: Supply>(
    rt: &impl Abort,
    alloc: Global,
    tasks: &[Task],
    supply: &S,
    window: u128,
    points: &[u128],
)
    requires { window ≤ 2 ^ 128 - 2 }
{
    match cover(alloc, tasks, supply, window).expect(rt, MEMORY) {
        Some(found) => expect_at(rt, window, found.as_slice(), points),
        None => expect_at(rt, window, points.is_empty(), true),
    }
}

#[test]
fn covers_of_small_sets(rt: HostRuntime) {
    let alloc = rt.alloc();
    let (two, late) = (two_tasks(&rt), two_late_tasks(&rt));
    let (third, fifth) = (periodic(&rt, 10, 3), periodic(&rt, 10, 2));
    expect_cover(&rt, alloc, &two, &third, 160, &[35, 65, 86, 137, 161]);
    expect_cover(&rt, alloc, &two, &fifth, 160, &[]);
    expect_cover(&rt, alloc, &[task(&rt, 10, 10, 3)], &Full, 11, &[3, 12]);
    // the jitter of 5 brings the second deadline of the first task from 100 to 95
    expect_cover(&rt, alloc, &two, &third, 95, &[35, 65, 96]);
    expect_cover(&rt, alloc, &late, &third, 95, &[35, 65, 86, 96]);
    expect_cover(&rt, alloc, &[], &Full, u128::MAX - 1, &[u128::MAX]);
}

// The horizons are 10^20 and more, and no test walks them.
#[test]
fn periods_with_no_small_common_multiple(rt: HostRuntime) {
    let tasks = five_rates(&rt);
    let h = horizon(&tasks, 4_000).expect(&rt, OUT);
    for (budget, short) in [(1_217, None), (1_216, Some(100_002))] {
        let supply = periodic(&rt, 4_000, budget);
        expect_at(&rt, budget, first_short(&tasks, &supply, h), short);
        expect_at(&rt, budget, passes(&tasks, &supply, h), short.is_none());
        expect(&rt, supply.cycle(), 4_000);
    }
}

// Each task asks for a third of its period, and no two periods have more in common than 3.
#[test]
fn a_full_supply_to_the_last_slot(rt: HostRuntime) {
    let first = task(&rt, 999_999_939, 999_999_939, 333_333_313);
    let second = task(&rt, 999_999_969, 999_999_969, 333_333_323);
    let third = task(&rt, 999_999_993, 999_999_993, 333_333_331);
    let tasks = [first, second, third];
    let h = horizon(&tasks, 1).expect(&rt, OUT);
    expect(&rt, passes(&tasks, &Full, h), true);
    expect(&rt, first_short(&tasks, &Full, h), None);
    let more = task(&rt, 999_999_939, 999_999_939, 333_333_314);
    expect(&rt, passes(&[more, second, third], &Full, h), false);
}

#[test]
fn a_rate_that_is_above_the_supply(rt: HostRuntime) {
    let third = [task(&rt, 50, 50, 15)];
    let supply = periodic(&rt, 10, 3);
    expect(&rt, passes(&third, &supply, 60), false);
    expect(&rt, first_short(&third, &supply, 60), Some(50));
}

#[test]
fn short_windows_of_a_level(rt: HostRuntime) {
    let tasks = [task(&rt, 10, 4, 3)];
    let mut terms = [Term::none()];
    let lined = LinedLevel::of(&DemandLevel::gather(&tasks, &mut terms));
    let supply = periodic(&rt, 5, 2);
    // 3, 6, 9 and 12 slots are asked for in 4, 14, 24 and 34, and come in 12, 18, 27 and 33
    for (window, first, last) in [
        (3, None, None),
        (4, Some(4), Some(4)),
        (13, Some(4), Some(11)),
        (17, Some(4), Some(17)),
        (23, Some(4), Some(17)),
        (100, Some(4), Some(26)),
        (u128::MAX, Some(4), Some(26)),
    ] {
        expect_at(&rt, window, first_short_by(&lined, &supply, window), first);
        expect_at(&rt, window, last_short_by(&lined, &supply, window), last);
    }
}

#[test]
fn which_windows_are_short(rt: HostRuntime) {
    let tasks = [task(&rt, 10, 4, 3)];
    let mut terms = [Term::none()];
    let level = DemandLevel::gather(&tasks, &mut terms);
    let supply = periodic(&rt, 5, 2);
    // as above: the first three are asked for in 4 slots and come in 12
    for (t, want) in [
        (0, false),
        (3, false),
        (4, true),
        (11, true),
        (12, false),
        (17, true),
        (18, false),
        (u128::MAX, false),
    ] {
        expect_at(&rt, t, is_short(&level, &supply, t), want);
    }
}
