ghost use Rattle.tree_model.specs.Plans.{IsPlan};

use crate::helpers::{HOST, MEMORY, planned, system_of};
use isolation::{CoreBudgets, Isolation, core_budgets, isolations};
use std::alloc::Global;
use std::process::Abort;
use tree_model::{Plan, System};

/// What VCPU `v` of the first core keeps.
fn isolation_in(rt: &impl Abort, alloc: Global, sys: &System, plan: &Plan, v: u32) -> Isolation
    requires { IsPlan sys.now plan.now }
{
    for row in &isolations(alloc, sys, plan).expect(rt, MEMORY) {
        if row.part == v {
            return row.isolation;
        }
    }
    panic!(rt; "no part of a core");
}

/// What is told of the core at a place.
fn budgets_on(rt: &impl Abort, alloc: Global, sys: &System, plan: &Plan, core: u32) -> CoreBudgets
    requires { IsPlan sys.now plan.now }
{
    for row in &core_budgets(alloc, sys, plan).expect(rt, MEMORY) {
        if row.core == core {
            return *row;
        }
    }
    panic!(rt; "no core with a part on it");
}

/// Of two cores the first is full: 3 slots in 6, ahead of 2 in 4. Neither the part of the second
/// core nor that of a part asks for any of it.
const PAIR: &str = "format = 1
core = [{name = 'cpu0', sched = 'edf'}, {name = 'cpu1', sched = 'edf'}]
[[part]]
name = 'B'
parent = 'cpu0'
sched = 'edf'
period = 6
budget = 3
[[part]]
name = 'A'
parent = 'cpu0'
sched = 'edf'
period = 4
budget = 2
extra = true
task = [{name = 't', period = 100, work = 1}]
[[part]]
name = 'C'
parent = 'B'
sched = 'edf'
period = 100
budget = 1
task = [{name = 't', period = 100, work = 1}]
[[part]]
name = 'D'
parent = 'cpu1'
sched = 'edf'
period = 4
budget = 4
task = [{name = 't', period = 100, work = 1}]
";

#[test]
fn ties_decide_for_the_first_and_the_second_is_exposed(rt: HostRuntime) {
    let sys = system_of(&rt, rt.alloc(), PAIR);
    let plan = planned(&rt, rt.alloc(), &sys);
    let first = isolation_in(&rt, rt.alloc(), &sys, &plan, 0);
    assert!(rt; first == Isolation::ByTies { last: 5 });
    assert!(rt; isolation_in(&rt, rt.alloc(), &sys, &plan, 1) == Isolation::ByBlock);
}

/// Budgets of one period that fit on a core: whoever wakes late, 3 slots and 4 fit in 7.
#[test]
fn equal_periods_are_isolated(rt: HostRuntime) {
    let sys = system_of(&rt, rt.alloc(), HOST);
    let plan = planned(&rt, rt.alloc(), &sys);
    let kept = isolation_in(&rt, rt.alloc(), &sys, &plan, 0);
    assert!(rt; kept == Isolation::Isolated { last: 7 });
}

/// On the first core 3 and 2 slots, where 4 is the shortest period; on the second 4 in 4.
#[test]
fn each_core_has_its_sum_and_its_shortest_period(rt: HostRuntime) {
    let sys = system_of(&rt, rt.alloc(), PAIR);
    let plan = planned(&rt, rt.alloc(), &sys);
    let first = budgets_on(&rt, rt.alloc(), &sys, &plan, 0);
    assert!(rt; first.budgets == 5 && first.shortest == 4);
    let second = budgets_on(&rt, rt.alloc(), &sys, &plan, 1);
    assert!(rt; second.budgets == 4 && second.shortest == 4);
}
