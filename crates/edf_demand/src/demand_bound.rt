ghost use Rattle.std.specs.Prelude.{◌≡◌, ℕ, ◌+◌, ◌^◌, ◌≤◌, List, MatchOption};
ghost use Rattle.slot_model.specs.Bound.{demand_of, dbf};
ghost use Rattle.slot_model.specs.Release.{LegalRelease, work_within};
ghost use Rattle.slot_model.specs.Task.{sporadic_task, sporadic_tasks};
ghost use Rattle.slot_model.specs.declared.job.Job.{Job};
ghost use Rattle.edf_demand.specs.Terms.{IsGathered};

use crate::terms::Gathered;
use slot_model::{LIMIT, Task};
use window_terms::{Term, asked, room_of};

/// The demand bound function: the most work that jobs of the tasks ask for, if they are released
/// and due in one window of `t` slots. None exactly where it is 2^128 slots or more.
pub fn demand(tasks: &[Task], t: u128) -> Option<u128>
    ensures exact { MatchOption result
        (2 ^ 128 ≤ dbf (sporadic_tasks tasks.now) t)
        (λ d. d ≡ dbf (sporadic_tasks tasks.now) t) }
    ensures bounds { (jobs : List Job) (from : ℕ) →
        LegalRelease (sporadic_tasks tasks.now) jobs →
        work_within (sporadic_tasks tasks.now) jobs from (from + t)
        ≤ dbf (sporadic_tasks tasks.now) t }
{
    let mut total: u128 = 0;
    for task in tasks {
        total = total.checked_add(demand_of_one(task, t))?;
    }
    Some(total)
}

fn demand_of_one(task: &Task, t: u128) -> u128
    ensures { result ≡ demand_of (sporadic_task task.now) t }
{
    let room = room_of(task) as u128;
    if t < room {
        return 0;
    }
    ((t - room) / task.period as u128 + 1) * task.work as u128
}

/// The same, and quicker by the terms that were gathered from the tasks.
pub(crate) fn demand_by(tasks: &[Task], terms: &[Term], gathered: Gathered, t: u128) -> Option<u128>
    requires { IsGathered gathered terms.now tasks.now }
    ensures { MatchOption result
        (2 ^ 128 ≤ dbf (sporadic_tasks tasks.now) t)
        (λ d. d ≡ dbf (sporadic_tasks tasks.now) t) }
{
    if t >= (u64::MAX - LIMIT) as u128 {
        return demand(tasks, t);
    }
    let first = asked(&terms[..gathered.terms], gathered.near, t as u64);
    demand(&tasks[gathered.tasks..], t)?.checked_add(first)
}
