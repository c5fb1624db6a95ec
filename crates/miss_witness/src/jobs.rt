ghost use Rattle.std.specs.Prelude.{◌≡◌, ◌+◌, ◌≤◌, length, IfOk};
ghost use Rattle.slot_model.specs.Task.{sporadic_tasks};
ghost use Rattle.slot_model.specs.Release.{LegalRelease, synchronous};

use crate::Defeat;
use release_pattern::jobs_in_reach;
use slot_model::{Job, Task};
use std::alloc::{AllocError, Global};

/// The jobs of a defeat: every task releases at its start, with its whole jitter behind it, and
/// then as its jobs arrive, once a period, within its span, always with full work. They stand by
/// release, and of one moment by place.
pub fn witness_jobs(alloc: Global, tasks: &[Task], w: &Defeat) -> Result<Vec<Job>, AllocError>
    requires in_reach { w.now.start + w.now.span ≤ 1000000 }
    requires few { length tasks.now ≤ 256 }
    ensures exact { let T = sporadic_tasks tasks.now in
        IfOk result (λ jobs. jobs.items ≡ synchronous T w.now.start w.now.span) }
    ensures legal { IfOk result (λ jobs. LegalRelease (sporadic_tasks tasks.now) jobs.items) }
    ensures few { IfOk result (λ jobs. length jobs.items ≤ 256000000) }
{
    jobs_in_reach(alloc, tasks, w.start, w.span as u64)
}
