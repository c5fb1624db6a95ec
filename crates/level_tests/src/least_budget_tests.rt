ghost use Rattle.std.specs.Prelude.{◌^◌, ◌<◌, ◌≤◌, length};
ghost use Rattle.slot_model.specs.declared.task.TheConstants.{LIMIT};

use crate::helpers::{
    expect, expect_at, five_long_tasks, five_rates, periodic, task, two_late_tasks, two_tasks,
};
use least_budget::{Edge, Least, Level, Tested, budget_edge, least_budget, test};
use slot_model::{Sched, Short, Task};
use std::process::Abort;
use supply_bound::Full;
use window_terms::Term;

const RANKS: [Sched; 3] = [Sched::Rm, Sched::Dm, Sched::Listed];

fn expect_budget(rt: &impl Abort, sched: Sched, tasks: &[Task], period: u64, budget: u64)
    requires few { length tasks.now < 2 ^ 32 }
    requires some_period { 1 ≤ period }
    requires in_limit { period ≤ LIMIT }
{
    let found = least_budget(sched, tasks, period);
    expect_at(rt, (sched, period), found, Least::Budget(budget));
}

#[test]
fn budgets_of_small_levels(rt: HostRuntime) {
    let (two, late) = (two_tasks(&rt), two_late_tasks(&rt));
    for (sched, budget) in [(Sched::Edf, 3), (Sched::Rm, 4)] {
        expect_budget(&rt, sched, &two, 10, budget);
        expect_budget(&rt, sched, &late, 10, budget);
    }
    let none: [Task; 0] = [];
    let whole = [task(&rt, 5, 5, 5)];
    let long = [task(&rt, 1_000_000_000, 1_000_000_000, 1_000_000_000)];
    for sched in [Sched::Edf, Sched::Rm, Sched::Dm, Sched::Listed] {
        expect_budget(&rt, sched, &none, 10, 0);
        expect_budget(&rt, sched, &whole, 5, 5);
        expect_budget(&rt, sched, &long, 1_000_000_000, 1_000_000_000);
    }
}

#[test]
fn what_is_short_one_slot_below_the_least_budget(rt: HostRuntime) {
    let two = two_tasks(&rt);
    for (sched, budget, short) in [
        (Sched::Edf, 3, Short::At(75)),
        (Sched::Rm, 4, Short::Task(1)),
        (Sched::Dm, 4, Short::Task(1)),
        (Sched::Listed, 4, Short::Task(1)),
    ] {
        let wanted = Edge {
            least: Least::Budget(budget),
            below: Some(short),
        };
        expect_at(&rt, sched, budget_edge(sched, &two, 10), wanted);
    }
    let none: [Task; 0] = [];
    let nothing = Edge {
        least: Least::Budget(0),
        below: None,
    };
    expect(&rt, budget_edge(Sched::Edf, &none, 10), nothing);
    expect(&rt, budget_edge(Sched::Rm, &none, 10), nothing);
}

#[test]
fn one_level_over_several_supplies(rt: HostRuntime) {
    let two = two_tasks(&rt);
    let (two_slots, three_slots) = (periodic(&rt, 10, 2), periodic(&rt, 10, 3));
    let mut terms = [Term::none(); 2];
    let ranked = Level::gather(Sched::Rm, &two, &mut terms);
    expect(&rt, ranked.least_budget(10), Least::Budget(4));
    let short = Tested::Short(Short::Task(1));
    expect(&rt, ranked.test(&three_slots), short);
    for (short, want) in [
        (Short::Task(0), false),
        (Short::Task(1), true),
        (Short::Task(2), false),
        (Short::At(75), false),
    ] {
        expect_at(&rt, short, ranked.is_short(&three_slots, short), want);
    }
    let mut terms = [Term::none(); 2];
    let by_deadline = Level::gather(Sched::Edf, &two, &mut terms);
    expect(&rt, by_deadline.least_budget(10), Least::Budget(3));
    let window = Short::At(75);
    for (supply, want) in [(&two_slots, true), (&three_slots, false)] {
        expect(&rt, by_deadline.is_short(supply, window), want);
    }
    expect(&rt, by_deadline.is_short(&two_slots, Short::Task(1)), false);
}

#[test]
fn levels_that_ask_for_too_much(rt: HostRuntime) {
    let tasks = [task(&rt, 2, 2, 2), task(&rt, 3, 3, 1)];
    for (sched, short) in [
        (Sched::Edf, Short::At(4)),
        (Sched::Rm, Short::Task(1)),
        (Sched::Dm, Short::Task(1)),
        (Sched::Listed, Short::Task(1)),
    ] {
        for period in [2, 100] {
            let found = least_budget(sched, &tasks, period);
            expect_at(&rt, (sched, period), found, Least::Over(short));
        }
    }
    let full = test(Sched::Edf, &tasks, &Full);
    expect(&rt, full, Tested::Short(Short::At(4)));
}

#[test]
fn horizons_past_128_bits(rt: HostRuntime) {
    let tasks = five_long_tasks(&rt);
    expect(
        &rt,
        least_budget(Sched::Edf, &tasks, 1_000_000),
        Least::Wide,
    );
    expect(&rt, test(Sched::Edf, &tasks, &Full), Tested::Wide);
    for sched in RANKS {
        expect_budget(&rt, sched, &tasks, 1_000_000, 1);
    }
}

#[test]
fn tests_at_the_least_budget(rt: HostRuntime) {
    let tasks = two_tasks(&rt);
    for (sched, budget, want) in [
        (Sched::Edf, 2, Tested::Short(Short::At(75))),
        (Sched::Edf, 3, Tested::Passes),
        (Sched::Rm, 3, Tested::Short(Short::Task(1))),
        (Sched::Dm, 3, Tested::Short(Short::Task(1))),
        (Sched::Listed, 3, Tested::Short(Short::Task(1))),
    ] {
        let supply = periodic(&rt, 10, budget);
        expect_at(&rt, (sched, budget), test(sched, &tasks, &supply), want);
    }
    for sched in RANKS {
        expect_at(&rt, sched, test(sched, &tasks, &Full), Tested::Passes);
    }
}

// The horizon is some 10^22 slots.
#[test]
fn periods_with_no_small_common_multiple(rt: HostRuntime) {
    let tasks = five_rates(&rt);
    expect_budget(&rt, Sched::Edf, &tasks, 4_000, 1_217);
    let below = periodic(&rt, 4_000, 1_216);
    let found = test(Sched::Edf, &tasks, &below);
    expect(&rt, found, Tested::Short(Short::At(100_002)));
}
