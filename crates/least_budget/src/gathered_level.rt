ghost use Rattle.std.specs.Prelude.{◌≡◌, ◌↔◌, ◌^◌, ◌<◌, ◌≤◌, length, IsTrue};
ghost use Rattle.slot_model.specs.declared.task.TheConstants.{LIMIT};
ghost use Rattle.slot_model.specs.declared.sched.Short.{Short as AnyShort};
ghost use Rattle.slot_model.specs.Task.{sporadic_tasks};
ghost use Rattle.least_budget.specs.declared.answers.Tested.TheVariants.{Short as FirstShort};
ghost use Rattle.least_budget.specs.Answers.{IsTested, IsShort, IsLeast, IsLeastOf, IsShortBelow};
ghost use Rattle.least_budget.specs.Levels.{sched_of, tasks_of, KeepsTerms};

use crate::by_task::least_by_rank;
use crate::halving::least_by_windows;
use crate::level_test::{is_short_task, is_short_window, test_by_rank, test_by_windows};
use crate::{Edge, Least, Tested};
use edf_demand::DemandLevel;
use edf_test::LinedLevel;
use fp_request::RankedLevel;
use slot_model::{LIMIT, Sched, Short, Task};
use supply_bound::{Budgeted, Periodic, Supply};
use window_terms::Term;

/// A level of tasks for any scheduler: it is gathered once, and asked for each supply.
#[derive(Clone, Copy)]
pub enum Level<'a> {
    ByWindows(LinedLevel<'a>),
    ByRank(RankedLevel<'a>),
}

impl<'a> Level<'a> {
    ghost use Rattle.std.specs.Prelude.{◌≡◌, ◌^◌, ◌<◌, ◌≤◌, length};

    /// Gathers in `room` the terms of the tasks, where it has places for them.
    pub fn gather(sched: Sched, tasks: &'a [Task], room: &'a mut [Term]) -> Level<'a>
        ensures sched { sched_of result ≡ sched }
        ensures tasks { tasks_of result ≡ tasks.now }
        ensures kept { KeepsTerms (length room.old) result }
    {
        match sched {
            Sched::Edf => Level::ByWindows(LinedLevel::of(&DemandLevel::gather(tasks, room))),
            _ => Level::ByRank(RankedLevel::gather(sched, tasks, room)),
        }
    }

    /// Whether the level passes over the supply, and if not, what is short first.
    pub fn test<S: Supply>(&self, s: &S) -> Tested
        requires few { length (tasks_of self.now) < 2 ^ 32 }
        ensures exact { IsTested (sched_of self.now) (sporadic_tasks (tasks_of self.now))
            (S.bound s.now) (S.cycle_of s.now) result }
        ensures short { (short : AnyShort) → result ≡ FirstShort short →
            IsShort (sched_of self.now) (sporadic_tasks (tasks_of self.now)) (S.bound s.now) short }
    {
        match self {
            Level::ByWindows(lined) => test_by_windows(lined, s),
            Level::ByRank(level) => test_by_rank(level, s),
        }
    }

    /// Whether this is short of the supply: one question, where `test` asks all.
    pub fn is_short<S: Supply>(&self, s: &S, short: Short) -> bool
        ensures { IsTrue result ↔ IsShort (sched_of self.now)
            (sporadic_tasks (tasks_of self.now)) (S.bound s.now) short }
    {
        match self {
            Level::ByWindows(lined) => is_short_window(lined, s, short),
            Level::ByRank(level) => is_short_task(level, s, short),
        }
    }

    /// The least budget with which the level passes over the supply.
    pub fn least_of<S: Budgeted>(&self, s: &S) -> Least
        requires few { length (tasks_of self.now) < 2 ^ 32 }
        ensures { IsLeastOf (sched_of self.now) (sporadic_tasks (tasks_of self.now))
            (S.bound_with s.now) (S.cycle_of s.now) (S.most_of s.now) result }
    {
        match self {
            Level::ByWindows(lined) => least_by_windows(lined, s),
            Level::ByRank(level) => least_by_rank(level, s),
        }
    }

    /// The least budget from 0 to `period` with which the level passes over the periodic resource
    /// of that period and budget.
    pub fn least_budget(&self, period: u64) -> Least
        requires few { length (tasks_of self.now) < 2 ^ 32 }
        requires some_period { 1 ≤ period }
        requires in_limit { period ≤ LIMIT }
        ensures { IsLeast (sched_of self.now) (sporadic_tasks (tasks_of self.now)) period result }
    {
        self.least_of(&whole(period))
    }

    /// The least budget, and what is short first with one slot less.
    pub fn edge<S: Budgeted>(&self, s: &S) -> Edge
        requires few { length (tasks_of self.now) < 2 ^ 32 }
        ensures least { IsLeastOf (sched_of self.now) (sporadic_tasks (tasks_of self.now))
            (S.bound_with s.now) (S.cycle_of s.now) (S.most_of s.now) result.least }
        ensures below { IsShortBelow (sched_of self.now) (sporadic_tasks (tasks_of self.now))
            (S.bound_with s.now) result.least result.below }
    {
        let least = self.least_of(s);
        Edge {
            least,
            below: self.short_below(s, least),
        }
    }

    /// What is short first with one slot less than the least budget.
    fn short_below<S: Budgeted>(&self, s: &S, least: Least) -> Option<Short>
        requires few { length (tasks_of self.now) < 2 ^ 32 }
        requires least { IsLeastOf (sched_of self.now) (sporadic_tasks (tasks_of self.now))
            (S.bound_with s.now) (S.cycle_of s.now) (S.most_of s.now) least }
        ensures { IsShortBelow (sched_of self.now) (sporadic_tasks (tasks_of self.now))
            (S.bound_with s.now) least result }
    {
        let Least::Budget(budget) = least else {
            return None;
        };
        if budget == 0 {
            return None;
        }
        match self.test(&s.with_budget(budget - 1)) {
            Tested::Short(short) => Some(short),
            Tested::Passes | Tested::Wide => unreachable!(),
        }
    }
}

/// The periodic resource of this period whose budget is all of it.
pub(crate) fn whole(period: u64) -> Periodic
    requires some_period { 1 ≤ period }
    requires in_limit { period ≤ LIMIT }
    ensures { (result.period ≡ period) × (result.budget ≡ period) }
{
    Periodic {
        period,
        budget: period,
    }
}
