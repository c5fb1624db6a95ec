ghost use Rattle.std.specs.Prelude.{◌≡◌, ◌↔◌, ◌<◌, ◌≤◌, None, true, length, IfOk, IsTrue};
ghost use Rattle.tree_model.specs.declared.system.TheConstants.{MAX_PARTS};
ghost use Rattle.tree_model.specs.System.{part_at, is_leaf_at};
ghost use Rattle.tree_model.specs.Admission.{Admitted};
ghost use Rattle.compose_tree.specs.Kept.{IsKept};
ghost use Rattle.admission_session.specs.Answers.{IsAdmitted};
ghost use Rattle.slack.specs.inner.Steps.{with_budget, IsMostBudget};

use admission_session::copy_system;
use compose_tree::recompose;
use slot_model::Task;
use std::alloc::{AllocError, Global};
use tree_model::{MAX_PARTS, Place, Plan, System};

/// The greatest budget of leaf `q` with which the nodes above it pass, in slots: the given one, or
/// by halving between that of the plan and the period.
pub fn most_budget(alloc: Global, sys: &System, plan: &Plan, q: usize) -> Result<u64, AllocError>
    requires admitted { Admitted sys.now plan.now }
    requires is_part { q < length sys.now.parts }
    requires leaf { is_leaf_at sys.now q ≡ true }
    ensures { IfOk result (λ budget. IsMostBudget sys.now q budget) }
{
    match sys.parts()[q].budget() {
        Some(budget) => Ok(budget),
        None => most_open(alloc, sys, plan, q),
    }
}

/// The same of a leaf without a given budget.
fn most_open(alloc: Global, sys: &System, plan: &Plan, q: usize) -> Result<u64, AllocError>
    requires admitted { Admitted sys.now plan.now }
    requires is_part { q < length sys.now.parts }
    requires leaf { is_leaf_at sys.now q ≡ true }
    requires computed { (part_at sys.now q).budget ≡ None }
    ensures { IfOk result (λ budget. IsMostBudget sys.now q budget) }
{
    let mut high = sys.parts()[q].period();
    let mut low = plan.budgets()[q];
    let start = Place::Part(q as u32);
    let mut trial = copy_system(alloc, sys)?;
    let mut budgets = Plan {
        budgets: Vec::from_slice(alloc, plan.budgets())?,
    };
    let mut tasks = vec![in alloc; Task::least(); MAX_PARTS]?;
    let room = tasks.as_mut_slice();
    while low < high {
        let middle = high - (high - low) / 2;
        trial = with_budget(trial, q, middle);
        if is_admitted(&trial, plan, start, &mut budgets, room) {
            low = middle;
        } else {
            high = middle - 1;
        }
    }
    Ok(low)
}

/// The system that gives this budget to part `q`, in slots.
fn with_budget(sys: System, q: usize, budget: u64) -> System
    requires is_part { q < length sys.parts }
    requires some { 1 ≤ budget }
    requires in_period { budget ≤ (part_at sys q).period }
    ensures { result ≡ with_budget sys q budget }
{
    let System { cores, mut parts } = sys;
    parts[q].budget = Some(budget);
    System { cores, parts }
}

/// Whether a system is admitted that differs at `start` from one that the plan admits. `trial` is
/// for its budgets, and `room` for the tasks of one node.
fn is_admitted(sys: &System, plan: &Plan, start: Place, trial: &mut Plan, room: &mut [Task]) -> bool
    requires kept { IsKept sys.now plan.now start }
    requires long { length trial.old ≡ length plan.now }
    requires room { MAX_PARTS ≤ length room.old }
    ensures long { length trial.new ≡ length plan.now }
    ensures admitted { IsTrue result ↔ IsAdmitted sys.now }
{
    trial.budgets.copy_from_slice(plan.budgets());
    recompose(sys, trial, start, room).is_ok()
}
