ghost use Rattle.std.specs.Prelude.{ℕ, ◌-◌, ◌^◌, ◌<◌, ◌≤◌, Bool, List, length};
ghost use Rattle.slot_model.specs.declared.task.TheConstants.{LIMIT};
ghost use Rattle.slot_model.specs.Task.{sporadic_tasks};
ghost use Rattle.slot_model.specs.Supply.{GivesBudget, worst_slot};
ghost use Rattle.slot_model.specs.Bound.{sbf, Passes, IsShortfall, IsSmall};
ghost use Rattle.slot_model.specs.Order.{before_of};
ghost use Rattle.slot_model.specs.Miss.{MissesFromStart, MustMiss, WorstList};
ghost use Rattle.miss_witness.specs.Defeat.{IsDefeat};

use crate::Defeat;
use least_budget::{Tested, test};
use slot_model::{Sched, Short, Task};
use supply_bound::Periodic;

/// What defeats the budget one below the least one of a level: over the worst pattern of that
/// budget the synchronous release misses in every permitted run. So every smaller budget must miss.
pub fn witness(sched: Sched, tasks: &[Task], period: u64, least: u64) -> Defeat
    requires few { length tasks.now < 2 ^ 32 }
    requires some_budget { 1 ≤ least }
    requires in_period { least ≤ period }
    requires in_limit { period ≤ LIMIT }
    requires small { IsSmall sched (sporadic_tasks tasks.now) period }
    requires falls_short { Passes sched (sporadic_tasks tasks.now) (sbf period (least - 1)) → ⊥ }
    ensures defeat { IsDefeat sched (sporadic_tasks tasks.now) period least result }

    // Over the worst pattern the synchronous release misses in every permitted run, whatever its
    // length.
    ensures misses { let T = sporadic_tasks tasks.now in
        let pattern = worst_slot period result.budget in
        (slots : List Bool) → WorstList pattern result.start result.span slots →
        GivesBudget period result.budget slots ×
        MissesFromStart pattern result.start result.span (before_of sched T) T slots }
    ensures must_miss { let T = sporadic_tasks tasks.now in
        (budget : ℕ) → budget < least → MustMiss (GivesBudget period budget) (before_of sched T) T }
{
    let below = Periodic {
        period,
        budget: least - 1,
    };
    match test(sched, tasks, &below) {
        Tested::Short(short) => defeat_by(sched, tasks, period, least, short),
        Tested::Passes | Tested::Wide => unreachable!(),
    }
}

/// The same, where this is short first with the budget one below the least one.
pub fn defeat_by(sched: Sched, tasks: &[Task], period: u64, least: u64, short: Short) -> Defeat
    requires some_budget { 1 ≤ least }
    requires in_period { least ≤ period }
    requires in_limit { period ≤ LIMIT }
    requires short { IsShortfall sched (sporadic_tasks tasks.now) (sbf period (least - 1)) short }
    ensures defeat { IsDefeat sched (sporadic_tasks tasks.now) period least result }
    ensures misses { let T = sporadic_tasks tasks.now in
        let pattern = worst_slot period result.budget in
        (slots : List Bool) → WorstList pattern result.start result.span slots →
        GivesBudget period result.budget slots ×
        MissesFromStart pattern result.start result.span (before_of sched T) T slots }
    ensures must_miss { let T = sporadic_tasks tasks.now in
        (budget : ℕ) → budget < least → MustMiss (GivesBudget period budget) (before_of sched T) T }
{
    let budget = least - 1;
    // The worst pattern gives its first budget at once, and from there on no more than the bound.
    let start = budget;
    match short {
        Short::At(span) => Defeat {
            budget,
            start,
            span,
            task: None,
        },
        Short::Task(task) => {
            let late = tasks[task as usize];
            Defeat {
                budget,
                start,
                span: (late.deadline - late.jitter) as u128,
                task: Some(task),
            }
        }
    }
}
