use crate::Level;
use edf_demand::{DemandLevel, Gathered, gather, set_gathered};
use edf_test::LinedLevel;
use fp_request::{RankedLevel, rank_all, set_ranked};
use slot_model::{Sched, Task};
use window_terms::Term;

/// How the terms in a room stand for a level of tasks. It borrows neither, so that a task may be
/// another one from one test to the next, and the terms need not be gathered anew.
#[derive(Clone, Copy)]
pub enum Gathering {
    ByWindows(Gathered),
    ByRank(Sched),
}

impl Gathering {
    ghost use Rattle.std.specs.Prelude.{◌≡◌, ◌<◌, length, slice_set};
    ghost use Rattle.least_budget.specs.Gatherings.{sched_by, Stand};
    ghost use Rattle.least_budget.specs.Levels.{sched_of, tasks_of, KeepsTerms};

    /// Writes the terms of the tasks, where there are as many places.
    pub fn gather(sched: Sched, tasks: &[Task], terms: &mut [Term]) -> Gathering
        ensures sched { sched_by result ≡ sched }
        ensures long { length terms.new ≡ length terms.old }
        ensures stand { Stand result terms.new tasks.now }
    {
        match sched {
            Sched::Edf => Gathering::ByWindows(gather(tasks, terms)),
            _ => {
                rank_all(sched, tasks, terms);
                Gathering::ByRank(sched)
            }
        }
    }

    /// The level with these terms.
    pub fn level<'a>(self, tasks: &'a [Task], terms: &'a [Term]) -> Level<'a>
        requires stand { Stand self terms.now tasks.now }
        ensures sched { sched_of result ≡ sched_by self }
        ensures tasks { tasks_of result ≡ tasks.now }
        ensures kept { length terms.now ≡ length tasks.now → KeepsTerms (length terms.now) result }
    {
        match self {
            Gathering::ByWindows(gathered) => Level::ByWindows(LinedLevel::of(&DemandLevel {
                tasks,
                terms,
                gathered,
            })),
            Gathering::ByRank(sched) => Level::ByRank(RankedLevel::of(sched, tasks, terms)),
        }
    }

    /// Puts another task in place `i`. Where it differs in its work alone one term is written.
    pub fn set_task(self, tasks: &mut [Task], terms: &mut [Term], i: usize, task: Task) -> Gathering
        requires stand { Stand self terms.old tasks.old }
        requires i_named { i < length tasks.old }
        ensures sched { sched_by result ≡ sched_by self }
        ensures set { tasks.new ≡ slice_set tasks.old i task }
        ensures long { length terms.new ≡ length terms.old }
        ensures stand { Stand result terms.new tasks.new }
    {
        match self {
            Gathering::ByWindows(gathered) => {
                Gathering::ByWindows(set_gathered(tasks, terms, gathered, i, task))
            }
            Gathering::ByRank(sched) => {
                set_ranked(sched, tasks, terms, i, task);
                self
            }
        }
    }
}
