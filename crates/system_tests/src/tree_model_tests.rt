ghost use Rattle.std.specs.Prelude.{◌≡◌, IsTrue, length};
ghost use Rattle.tree_model.specs.Tree.{IsNode, ChildBudgetsFit};
ghost use Rattle.tree_model.specs.declared.place.Place.{Place as AnyPlace};

use crate::helpers::{MEMORY, add_task, inner, name, task};
use slot_model::{LIMIT, Sched, Task};
use std::alloc::Global;
use std::process::Abort;
use supply_bound::{NodeSupply, Supply};
use tree_model::{
    Core, Parent, Part, Place, System, budget_of, node_supply, period_of, sched_of, tasks_of,
};

/// A part with a task for each of these works.
fn part(
    rt: &impl Abort,
    alloc: Global,
    name: &str,
    parent: Parent,
    period: u64,
    works: &[u64],
) -> Part {
    let mut part = inner(rt, alloc, name, parent, Sched::Rm, period);
    for (work, name) in works.iter().zip(["net", "disk"]) {
        add_task(rt, alloc, &mut part, name, task(rt, 10, 8, *work));
    }
    part
}

/// One full core with these parts, if that is a system.
fn system(rt: &impl Abort, alloc: Global, parts: Vec<Part>) -> Option<System> {
    let core = Core {
        name: name(rt, alloc, "cpu0"),
        sched: Sched::Edf,
        supply: None,
    };
    let cores = Vec::from_array(alloc, [core]).expect(rt, MEMORY);
    System::new(cores, parts).ok()
}

fn are_in_period(sys: &System, budgets: &[u64]) -> bool
    requires { length budgets.now ≡ length sys.now.parts }
    ensures { IsTrue result → (node : AnyPlace) → ChildBudgetsFit sys.now budgets.now node }
{
    for (q, part) in sys.parts().iter().enumerate() {
        if budgets[q] < 1 || budgets[q] > part.period() {
            return false;
        }
    }
    true
}

fn tasks_at(
    rt: &impl Abort,
    sys: &System,
    budgets: &[u64],
    place: Place,
    into: &mut [Task],
) -> Option<usize> {
    assert!(rt; budgets.len() == sys.parts().len());
    assert!(rt; are_in_period(sys, budgets));
    assert_node(rt, sys, place);
    tasks_of(sys, budgets, place, into)
}

fn assert_node(rt: &impl Abort, sys: &System, place: Place)
    ensures { IsNode sys.now place }
{
    match place {
        Place::Core(c) => assert!(rt; (c as usize) < sys.cores().len()),
        Place::Part(q) => assert!(rt; (q as usize) < sys.parts().len()),
    }
}

/// What a node is scheduled by, its supply's period, and the budget that is given for it.
fn assert_level(rt: &impl Abort, sys: &System, place: Place, want: (Sched, u64, Option<u64>)) {
    assert_node(rt, sys, place);
    let sched = sched_of(sys, place);
    let period = period_of(sys, place);
    let budget = budget_of(sys, place);
    assert!(rt; sched == want.0 && period == want.1 && budget == want.2);
}

/// The part's supply under this budget has these slots in a window.
fn assert_part_supply(rt: &impl Abort, part: &Part, budget: u64, t: u128, want: u128) {
    assert!(rt; 1 <= part.period() && part.period() <= LIMIT && budget <= part.period());
    let supply = part.node_supply(budget);
    assert!(rt; supply.budget() == budget && supply.least(t) == want);
}

/// A group with a guest, and a guest beside it.
fn group_and_guest(rt: &impl Abort, alloc: Global) -> System {
    let parts = [
        part(rt, alloc, "group", Parent::Core(0), 5, &[]),
        part(rt, alloc, "web", Parent::Part(0), 4, &[2, 3]),
        part(rt, alloc, "db", Parent::Core(0), 6, &[1]),
    ];
    let parts = Vec::from_array(alloc, parts).expect(rt, MEMORY);
    system(rt, alloc, parts).expect(rt, "a system")
}

const BUDGETS: [u64; 3] = [3, 2, 4];

/// Two tasks are written, and these are they; what stands behind them stays.
fn assert_tasks(rt: &impl Abort, sys: &System, place: Place, first: Task, second: Task) {
    let other = task(rt, 99, 99, 99);
    let mut into = [other; 3];
    let count = tasks_at(rt, sys, &BUDGETS, place, &mut into);
    assert!(rt; count == Some(2) && into == [first, second, other]);
}

#[test]
fn a_node_has_its_own_tasks_or_servers(rt: HostRuntime) {
    let sys = group_and_guest(&rt, rt.alloc());
    let (group, alone) = (task(&rt, 5, 5, 3), task(&rt, 6, 6, 4));
    assert_tasks(&rt, &sys, Place::Core(0), group, alone);
    let (net, disk) = (task(&rt, 10, 8, 2), task(&rt, 10, 8, 3));
    assert_tasks(&rt, &sys, Place::Part(1), net, disk);
}

#[test]
fn more_tasks_than_there_is_room_for(rt: HostRuntime) {
    let sys = group_and_guest(&rt, rt.alloc());
    let other = task(&rt, 99, 99, 99);
    let mut few = [other; 1];
    let count = tasks_at(&rt, &sys, &BUDGETS, Place::Core(0), &mut few);
    assert!(rt; count.is_none() && few == [other]);
}

#[test]
fn a_node_has_its_scheduler_and_its_supply(rt: HostRuntime) {
    let sys = group_and_guest(&rt, rt.alloc());
    assert_level(&rt, &sys, Place::Core(0), (Sched::Edf, 1, Some(1)));
    assert_level(&rt, &sys, Place::Part(1), (Sched::Rm, 4, None));
    assert_node(&rt, &sys, Place::Core(0));
    assert!(rt; sys.parts().len() == 3);
    assert!(rt; node_supply(&sys, &BUDGETS, Place::Core(0)) == NodeSupply::Full);
    for (part, (budget, t, want)) in sys.parts().iter().zip([(3, 5, 1), (2, 5, 1), (4, 7, 3)]) {
        assert_part_supply(&rt, part, budget, t, want);
    }
}

/// Whether `web` on one parent, and a second part of this name, parent and works, are a system.
fn are_system(
    rt: &impl Abort,
    alloc: Global,
    first: Parent,
    name: &str,
    second: Parent,
    works: &[u64],
) -> bool {
    let parts = [
        part(rt, alloc, "web", first, 4, &[1]),
        part(rt, alloc, name, second, 4, works),
    ];
    let parts = Vec::from_array(alloc, parts).expect(rt, MEMORY);
    system(rt, alloc, parts).is_some()
}

const CORE: Parent = Parent::Core(0);

const PARENTS: [(Parent, Parent, bool); 4] = [
    (CORE, CORE, true),
    (CORE, Parent::Part(0), false),
    (Parent::Part(1), CORE, false),
    (Parent::Core(1), CORE, false),
];

#[test]
fn a_parent_stands_earlier_and_has_no_tasks(rt: HostRuntime) {
    for (first, second, want) in PARENTS {
        let found = are_system(&rt, rt.alloc(), first, "db", second, &[1]);
        assert!(rt; found == want);
    }
}

const NAMES: [(&str, &[u64], bool); 4] = [
    ("db", &[1], true),
    ("web", &[1], false),
    ("cpu0", &[1], false),
    ("db", &[], false),
];

#[test]
fn names_differ_and_parts_are_not_empty(rt: HostRuntime) {
    for (name, works, want) in NAMES {
        let found = are_system(&rt, rt.alloc(), CORE, name, CORE, works);
        assert!(rt; found == want);
    }
}
