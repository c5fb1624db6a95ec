ghost use Rattle.std.specs.Prelude.{◌≡◌, ◌^◌, ◌<◌, None, length, IfOk, IfErr};
ghost use Rattle.slot_model.specs.Task.{sporadic_tasks};
ghost use Rattle.slot_model.specs.Bound.{sbf, TestPasses};
ghost use Rattle.tree_model.specs.System.{IsPeriod, IsGivenBudget};
ghost use Rattle.tree_model.specs.Admission.{IsGivenOrLeast, largest_budget};
ghost use Rattle.least_budget.specs.Answers.{IsLeast, IsShortBelow};
ghost use Rattle.compose_tree.specs.Steps.{NodeRefuses};
ghost use Rattle.compose_tree.specs.inner.Steps.{IsPartBudget};

use least_budget::{Edge, Least, Tested, budget_edge, least_budget, test};
use slot_model::{Sched, Short, Task};
use supply_bound::{Periodic, Supply};
use tree_model::{Part, Place, Refusal};

/// What is asked of a part whose budget is computed: the least one that passes, or also what is
/// short first with one slot less.
#[derive(Clone, Copy)]
pub enum Asked {
    Least,
    Edge,
}

/// The budget of a part, in slots, and what is short first with one slot less, where that is asked
/// of a budget that is computed.
#[derive(Clone, Copy)]
pub struct Settled {
    pub budget: u64,
    pub below: Option<Short>,
}

/// The budget of a part with these tasks, in slots: the given one, which has to pass, and where
/// none is given the least that passes.
pub fn part_budget(
    part: &Part,
    node: Place,
    tasks: &[Task],
    asked: Asked,
) -> Result<Settled, Refusal>
    requires few { length tasks.now < 2 ^ 32 }
    requires period { IsPeriod part.now.period }
    requires given { IsGivenBudget part.now.period part.now.budget }
    ensures budget { let T = sporadic_tasks tasks.now in
        IfOk result (λ settled. IsPartBudget part.now.sched T part.now.period part.now.budget
        settled.budget) }
    ensures below { let T = sporadic_tasks tasks.now in
        asked ≡ Asked.Edge → part.now.budget ≡ None → IfOk result (λ settled.
        IsShortBelow part.now.sched T (sbf part.now.period) (Least.Budget settled.budget)
        settled.below) }
    ensures refuses { let T = sporadic_tasks tasks.now in
        let period = part.now.period in
        let largest = largest_budget part.now.budget period in
        IfErr result (λ r. NodeRefuses part.now.sched T (sbf period largest) period node r) }
{
    let period = part.period();
    match part.budget() {
        Some(budget) => {
            test_node(part.sched(), node, tasks, &Periodic { period, budget })?;
            Ok(Settled {
                budget,
                below: None,
            })
        }
        None => computed_edge(part.sched(), node, tasks, period, asked),
    }
}

/// The budget of a part with these tasks, in slots: the given one, untested, and where none is
/// given the least that passes.
pub fn untested_budget(part: &Part, node: Place, tasks: &[Task]) -> Result<u64, Refusal>
    requires few { length tasks.now < 2 ^ 32 }
    requires period { IsPeriod part.now.period }
    requires given { IsGivenBudget part.now.period part.now.budget }
    ensures budget { let T = sporadic_tasks tasks.now in
        IfOk result (λ b. IsGivenOrLeast part.now.sched T part.now.period part.now.budget b) }
    ensures refuses { let T = sporadic_tasks tasks.now in
        let period = part.now.period in
        let largest = largest_budget part.now.budget period in
        IfErr result (λ r. (part.now.budget ≡ None)
        × NodeRefuses part.now.sched T (sbf period largest) period node r) }
{
    match part.budget() {
        Some(budget) => Ok(budget),
        None => computed_budget(part.sched(), node, tasks, part.period()),
    }
}

/// The least budget of these tasks that passes.
fn computed_budget(sched: Sched, node: Place, tasks: &[Task], period: u64) -> Result<u64, Refusal>
    requires few { length tasks.now < 2 ^ 32 }
    requires period { IsPeriod period }
    ensures budget { let T = sporadic_tasks tasks.now in
        IfOk result (λ b. IsPartBudget sched T period None b) }
    ensures refuses { let T = sporadic_tasks tasks.now in
        IfErr result (λ r. NodeRefuses sched T (sbf period period) period node r) }
{
    match computed_edge(sched, node, tasks, period, Asked::Least) {
        Ok(settled) => Ok(settled.budget),
        Err(refusal) => Err(refusal),
    }
}

/// The same, and what is short first with one slot less, where that is asked.
fn computed_edge(
    sched: Sched,
    node: Place,
    tasks: &[Task],
    period: u64,
    asked: Asked,
) -> Result<Settled, Refusal>
    requires few { length tasks.now < 2 ^ 32 }
    requires period { IsPeriod period }
    ensures budget { let T = sporadic_tasks tasks.now in
        IfOk result (λ settled. IsPartBudget sched T period None settled.budget) }
    ensures below { let T = sporadic_tasks tasks.now in
        asked ≡ Asked.Edge → IfOk result (λ settled.
        IsShortBelow sched T (sbf period) (Least.Budget settled.budget) settled.below) }
    ensures refuses { let T = sporadic_tasks tasks.now in
        IfErr result (λ r. NodeRefuses sched T (sbf period period) period node r) }
{
    let Edge { least, below } = least_edge(sched, tasks, period, asked);
    match least {
        Least::Budget(budget) => Ok(Settled { budget, below }),
        Least::Over(short) => Err(Refusal::Overfull(node, short)),
        Least::Wide => Err(Refusal::Wide(node)),
    }
}

/// The least budget of these tasks, with what is asked of it.
fn least_edge(sched: Sched, tasks: &[Task], period: u64, asked: Asked) -> Edge
    requires few { length tasks.now < 2 ^ 32 }
    requires period { IsPeriod period }
    ensures least { IsLeast sched (sporadic_tasks tasks.now) period result.least }
    ensures below { asked ≡ Asked.Edge → IsShortBelow sched (sporadic_tasks tasks.now)
        (sbf period) result.least result.below }
{
    match asked {
        Asked::Least => Edge {
            least: least_budget(sched, tasks, period),
            below: None,
        },
        Asked::Edge => budget_edge(sched, tasks, period),
    }
}

/// The exact test of a node under a supply, and its refusal.
pub fn test_node<S: Supply>(sched: Sched, node: Place, tasks: &[Task], s: &S) -> Result<(), Refusal>
    requires { length tasks.now < 2 ^ 32 }
    ensures passes { let T = sporadic_tasks tasks.now in
        IfOk result (λ _. TestPasses sched T (S.bound s.now) (S.cycle_of s.now)) }
    ensures refuses { let T = sporadic_tasks tasks.now in
        IfErr result (λ r. NodeRefuses sched T (S.bound s.now) (S.cycle_of s.now) node r) }
{
    match test(sched, tasks, s) {
        Tested::Passes => Ok(()),
        Tested::Short(short) => Err(Refusal::Overfull(node, short)),
        Tested::Wide => Err(Refusal::Wide(node)),
    }
}
