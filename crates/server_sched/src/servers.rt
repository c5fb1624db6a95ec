ghost use Rattle.std.specs.Prelude.{◌≡◌, ℕ, ◌^◌, ◌<◌, List, Option, length, IfOk};
ghost use Rattle.slot_model.specs.Task.{sporadic_tasks};
ghost use Rattle.slot_model.specs.Release.{LegalRelease};
ghost use Rattle.slot_model.specs.Run.{server, FirstRun, PermittedRun};
ghost use Rattle.release_pattern.specs.Multiples.{at_multiples};

use guest_sched::{Keep, run_slots};
use release_pattern::jobs_at_multiples;
use slot_model::{Job, Order, Task};
use std::alloc::{AllocError, Global};

/// The jobs of servers in `slots` slots: of each task one of full work at every multiple of its
/// period, released as it arrives. They stand by release, and of one moment by place.
pub fn server_jobs(alloc: Global, tasks: &[Task], slots: u64) -> Result<Vec<Job>, AllocError>
    requires few { length (at_multiples (sporadic_tasks tasks.now) slots) < 2 ^ 32 }
    ensures exact { let T = sporadic_tasks tasks.now in
        IfOk result (λ jobs. jobs.items ≡ at_multiples T slots) }
    ensures legal { IfOk result (λ jobs. LegalRelease (sporadic_tasks tasks.now) jobs.items) }
    ensures few { IfOk result (λ jobs. length jobs.items < 2 ^ 32) }
{
    jobs_at_multiples(alloc, tasks, slots)
}

/// The schedule of a level of servers over a list of slots, true where the level has the slot: at
/// each the place of the job that has it. A job is given up at its deadline moment. Where several
/// jobs may have the slot, that is the first in the list.
pub fn run_servers<O: Order>(
    alloc: Global,
    tasks: &[Task],
    jobs: &[Job],
    order: &O,
    given: &[bool],
) -> Result<Vec<Option<u32>>, AllocError>
    requires legal { LegalRelease (sporadic_tasks tasks.now) jobs.now }
    requires few { length jobs.now < 2 ^ 32 }
    ensures first { let T = sporadic_tasks tasks.now in let goes = O.goes order.now T in
        IfOk result (λ run. FirstRun server goes T jobs.now given.now run.items) }
    ensures permitted { let T = sporadic_tasks tasks.now in let goes = O.goes order.now T in
        IfOk result (λ run. PermittedRun server goes T jobs.now given.now run.items) }
    ensures only { let T = sporadic_tasks tasks.now in let goes = O.goes order.now T in
        IfOk result (λ run. (other : List (Option ℕ)) →
        FirstRun server goes T jobs.now given.now other → other ≡ run.items) }
{
    run_slots(alloc, Keep::UntilDeadline, tasks, jobs, order, given)
}
