use crate::helpers::{expect, expect_at, periodic};
use supply_bound::{Full, NodeSupply, Periodic, Supply, Window, next_window_by};

#[test]
fn least_slots_of_windows(rt: HostRuntime) {
    for (period, budget, window, slots) in [
        (10, 3, 0, 0),
        (10, 3, 14, 0),
        (10, 3, 15, 1),
        (10, 3, 17, 3),
        (10, 3, 24, 3),
        (10, 3, 25, 4),
        (10, 3, u128::MAX, 102084710076281539039012382229530463433),
        (5, 0, 0, 0),
        (5, 0, 1, 0),
        (5, 0, 5, 0),
        (5, 0, 100, 0),
        (5, 0, u128::MAX, 0),
        (5, 5, u128::MAX, u128::MAX),
    ] {
        let least = periodic(&rt, period, budget).least(window);
        expect_at(&rt, (period, budget, window), least, slots);
    }
    expect(&rt, Full.least(7), 7);
}

#[test]
fn windows_that_reach_a_bound(rt: HostRuntime) {
    for (period, budget, slots, window) in [
        (10, 3, 0, Some(0)),
        (10, 3, 1, Some(15)),
        (10, 3, 3, Some(17)),
        (10, 3, 4, Some(25)),
        (10, 3, 16, Some(65)),
        (10, 3, u128::MAX, None),
        (
            2,
            1,
            170141183460469231731687303715884105727,
            Some(u128::MAX),
        ),
        (2, 1, 170141183460469231731687303715884105728, None),
        (5, 0, 0, Some(0)),
        (5, 0, 1, None),
    ] {
        let reached = periodic(&rt, period, budget).reach(slots);
        expect_at(&rt, (period, budget, slots), reached, window);
    }
    expect(&rt, Full.reach(u128::MAX), Some(u128::MAX));
}

#[test]
fn resources_in_range(rt: HostRuntime) {
    for (period, budget) in [(0, 0), (5, 6), (1_000_000_001, 1), (u64::MAX, u64::MAX)] {
        expect_at(&rt, (period, budget), Periodic::new(period, budget), None);
    }
    for (period, budget) in [
        (1, 0),
        (1, 1),
        (1_000_000_000, 0),
        (1_000_000_000, 1_000_000_000),
    ] {
        let made = Periodic::new(period, budget);
        expect_at(&rt, (period, budget), made.is_some(), true);
    }
}

#[test]
fn worst_patterns(rt: HostRuntime) {
    let part = periodic(&rt, 5, 2);
    let given = [
        true, true, false, false, false, false, false, false, true, true, false, false, false, true,
    ];
    for (x, slot) in given.iter().enumerate() {
        expect_at(&rt, x, part.worst(x as u64), *slot);
    }
    expect(&rt, (part.start(), part.cycle()), (2, 5));
    expect(
        &rt,
        (Full.worst(3), Full.start(), Full.cycle()),
        (true, 0, 1),
    );
}

const fn window(from: u64, until: u64) -> Option<Window> {
    Some(Window { from, until })
}

/// Slots 0, 1, 8, 9, 13, 14 and so on, by slot 4 of each period 0, 1, 7, 8, 12, 13.
#[test]
fn next_windows(rt: HostRuntime) {
    let part = periodic(&rt, 5, 2);
    for (from, below, next) in [
        (0, 20, window(0, 2)),
        (1, 20, window(1, 2)),
        (2, 20, window(8, 10)),
        (9, 20, window(9, 10)),
        (10, 14, window(13, 14)),
        (2, 8, None),
        (20, 20, None),
        (u64::MAX - 1, u64::MAX, window(u64::MAX - 1, u64::MAX)),
        (u64::MAX, u64::MAX, None),
    ] {
        expect_at(&rt, (from, below), part.next_window(from, below), next);
    }
    for (from, next) in [(0, window(0, 2)), (2, window(7, 9)), (9, window(12, 14))] {
        expect_at(&rt, from, next_window_by(5, 2, 4, from, 20), next);
    }
    expect(&rt, periodic(&rt, 5, 0).next_window(0, 20), None);
    expect(&rt, periodic(&rt, 5, 5).next_window(3, 20), window(3, 20));
    expect(&rt, Full.next_window(3, 20), window(3, 20));
}

#[test]
fn windows_after(rt: HostRuntime) {
    let part = periodic(&rt, 5, 2);
    for (from, below, after) in [
        (0, 20, window(8, 10)),
        (2, 20, window(13, 15)),
        (9, 14, window(13, 14)),
        (9, 13, None),
        (2, 9, None),
    ] {
        let last = part.next_window(from, below).expect(&rt, "a window");
        expect_at(&rt, (from, below), part.window_after(last, below), after);
    }
}

#[test]
fn supplies_of_nodes(rt: HostRuntime) {
    let part = NodeSupply::Periodic(periodic(&rt, 5, 2));
    expect(&rt, (part.cycle(), part.budget(), part.start()), (5, 2, 2));
    expect(
        &rt,
        (part.least(8), part.reach(2), part.worst(2)),
        (2, Some(8), false),
    );
    let core = NodeSupply::Full;
    expect(&rt, (core.cycle(), core.budget(), core.start()), (1, 1, 0));
    expect(
        &rt,
        (core.least(8), core.reach(2), core.worst(2)),
        (8, Some(2), true),
    );
}
