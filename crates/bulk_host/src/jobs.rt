ghost use Rattle.std.specs.Prelude.{◌≡◌, ◌≤◌, length, map, IfOk};
ghost use Rattle.release_pattern.specs.Multiples.{at_multiples};
ghost use Rattle.tree_model.specs.System.{own_tasks};
ghost use Rattle.bulk_host.specs.Host.{full_jobs};

use release_pattern::jobs_at_multiples;
use slot_model::Job;
use std::alloc::{AllocError, Global};
use tree_model::{Part, System, own_tasks};

/// The jobs of each part in `slots` slots: every task releases a job of full work at each multiple
/// of its period, as it arrives, and the jobs stand by release and then by task. An inner part has
/// none.
pub fn bulk_jobs(alloc: Global, sys: &System, slots: u64) -> Result<Vec<Vec<Job>>, AllocError>
    requires { slots ≤ 1000000 }
    ensures { IfOk result (λ jobs. map (λ list. list.items) jobs.items ≡ full_jobs sys.now slots) }
{
    let parts = sys.parts();
    let mut jobs = Vec::with_capacity(alloc, parts.len())?;
    for part in parts {
        jobs.push(jobs_of_part(alloc, part, slots)?)?;
    }
    Ok(jobs)
}

fn jobs_of_part(alloc: Global, part: &Part, slots: u64) -> Result<Vec<Job>, AllocError>
    requires few { length part.now.tasks ≤ 256 }
    requires slots { slots ≤ 1000000 }
    ensures { IfOk result (λ jobs. jobs.items ≡ at_multiples (own_tasks part.now) slots) }
{
    let tasks = own_tasks(alloc, part)?;
    jobs_at_multiples(alloc, &tasks, slots)
}
