ghost use Rattle.edf_demand.specs.Terms.{IsGathered};

use crate::demand_bound::demand_by;
use crate::terms::{Gathered, gather};
use slot_model::Task;
use window_terms::Term;

/// A level under earliest deadline first, with the terms of its tasks: they are gathered once, and
/// asked for each window of each supply.
#[derive(Clone, Copy)]
pub struct DemandLevel<'a> {
    pub tasks: &'a [Task],
    pub terms: &'a [Term],
    pub gathered: Gathered,
    pub ghost is_gathered: { IsGathered gathered terms.now tasks.now },
}

impl<'a> DemandLevel<'a> {
    ghost use Rattle.std.specs.Prelude.{◌≡◌, ◌^◌, ◌≤◌, min, MatchOption, length};
    ghost use Rattle.slot_model.specs.Task.{sporadic_tasks};
    ghost use Rattle.slot_model.specs.Bound.{dbf};

    /// Gathers in `room` the terms of as many of the tasks as it has places for.
    pub fn gather(tasks: &'a [Task], room: &'a mut [Term]) -> DemandLevel<'a>
        ensures tasks { result.tasks.now ≡ tasks.now }
        ensures kept { min (length room.old) (length tasks.now) ≤ result.gathered.tasks }
    {
        let gathered = gather(tasks, room);
        DemandLevel {
            tasks,
            terms: room,
            gathered,
        }
    }

    /// The demand bound for `t` slots. None exactly where it is 2^128 slots or more.
    pub fn demand(&self, t: u128) -> Option<u128>
        ensures { let T = sporadic_tasks self.now.tasks.now in
            MatchOption result (2 ^ 128 ≤ dbf T t) (λ d. d ≡ dbf T t) }
    {
        demand_by(self.tasks, self.terms, self.gathered, t)
    }
}
