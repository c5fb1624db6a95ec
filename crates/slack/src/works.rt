ghost use Rattle.std.specs.Prelude.{◌≡◌, ◌↔◌, ◌+◌, ◌^◌, ◌<◌, ◌≤◌, length, IfOk, IsTrue, slice_set};
ghost use Rattle.slot_model.specs.Task.{sporadic_tasks};
ghost use Rattle.slot_model.specs.Bound.{sbf, TestPasses};
ghost use Rattle.least_budget.specs.Gatherings.{sched_by, Stand};
ghost use Rattle.least_budget.specs.Levels.{sched_of, tasks_of};
ghost use Rattle.slack.specs.inner.Steps.{IsMostPassing, AreMostPassing};

use least_budget::{Gathering, Level, Tested};
use slot_model::{Sched, Task};
use std::alloc::{AllocError, Global};
use supply_bound::Periodic;
use window_terms::{Term, room_of};

/// The greatest work of each task with which all pass over the supply, each task by itself.
pub fn most_works(
    alloc: Global,
    sched: Sched,
    tasks: &mut [Task],
    supply: Periodic,
) -> Result<Vec<u64>, AllocError>
    requires few { length tasks.old < 2 ^ 32 }
    requires passes { TestPasses sched (sporadic_tasks tasks.old)
        (sbf supply.period supply.budget) supply.period }
    ensures one_each { IfOk result (λ works. length works.items ≡ length tasks.old) }
    ensures most { IfOk result (λ works. AreMostPassing sched (sporadic_tasks tasks.old)
        supply.period supply.budget works.items) }
{
    let mut room = vec![in alloc; Term::none(); tasks.len()]?;
    let terms = room.as_mut_slice();
    let mut gathering = Gathering::gather(sched, tasks, terms);
    let mut works = Vec::with_capacity(alloc, tasks.len())?;
    for i in 0..tasks.len() {
        works.push(most_work(&mut gathering, tasks, terms, i, supply))?;
    }
    Ok(works)
}

/// The greatest work of task `i` with which all pass, by halving between its work and what its
/// deadline leaves past its jitter. The terms stand for the tasks.
fn most_work(
    gathering: &mut Gathering,
    tasks: &mut [Task],
    terms: &mut [Term],
    i: usize,
    supply: Periodic,
) -> u64
    requires few { length tasks.old < 2 ^ 32 }
    requires is_task { i < length tasks.old }
    requires stand { Stand gathering.old terms.old tasks.old }
    requires passes { TestPasses (sched_by gathering.old) (sporadic_tasks tasks.old)
        (sbf supply.period supply.budget) supply.period }
    ensures same { tasks.new ≡ tasks.old }
    ensures sched { sched_by gathering.new ≡ sched_by gathering.old }
    ensures stand { Stand gathering.new terms.new tasks.new }
    ensures most { IsMostPassing (sched_by gathering.old) (sporadic_tasks tasks.old)
        supply.period supply.budget i result }
{
    let task = tasks[i];
    let mut low = task.work;
    let mut high = room_of(&task);
    while low < high {
        let middle = high - (high - low) / 2;
        if passes_with(gathering, tasks, terms, i, with_work(task, middle), supply) {
            low = middle;
        } else {
            high = middle - 1;
        }
    }
    *gathering = gathering.set_task(tasks, terms, i, task);
    low
}

/// Whether all tasks pass over the supply with this one in place `i`.
fn passes_with(
    gathering: &mut Gathering,
    tasks: &mut [Task],
    terms: &mut [Term],
    i: usize,
    tried: Task,
    supply: Periodic,
) -> bool
    requires few { length tasks.old < 2 ^ 32 }
    requires is_task { i < length tasks.old }
    requires stand { Stand gathering.old terms.old tasks.old }
    ensures set { tasks.new ≡ slice_set tasks.old i tried }
    ensures sched { sched_by gathering.new ≡ sched_by gathering.old }
    ensures stand { Stand gathering.new terms.new tasks.new }
    ensures passes { IsTrue result ↔ TestPasses (sched_by gathering.old)
        (sporadic_tasks (slice_set tasks.old i tried)) (sbf supply.period supply.budget)
        supply.period }
{
    *gathering = gathering.set_task(tasks, terms, i, tried);
    all_pass(&gathering.level(tasks, terms), supply)
}

fn all_pass(level: &Level, supply: Periodic) -> bool
    requires { length (tasks_of level.now) < 2 ^ 32 }
    ensures { IsTrue result ↔ TestPasses (sched_of level.now) (sporadic_tasks (tasks_of level.now))
        (sbf supply.period supply.budget) supply.period }
{
    matches!(level.test(&supply), Tested::Passes)
}

/// The task with other work.
fn with_work(task: Task, work: u64) -> Task
    requires some { 1 ≤ work }
    requires in_deadline { work + task.jitter ≤ task.deadline }
    ensures { (result.period ≡ task.period) × (result.deadline ≡ task.deadline)
        × (result.work ≡ work) × (result.jitter ≡ task.jitter) }
{
    Task {
        period: task.period,
        deadline: task.deadline,
        work,
        jitter: task.jitter,
    }
}
