ghost use Rattle.std.specs.Prelude.{◌^◌, ◌<◌, length};
ghost use Rattle.slot_model.specs.Task.{sporadic_tasks};
ghost use Rattle.slot_model.specs.Release.{LegalRelease};
ghost use Rattle.guest_sched.specs.Spans.{AreWindows};

use crate::keep::Keep;
use slot_model::{Job, Task};
use supply_bound::Window;

/// What a level runs: until when it keeps a job, its tasks, the jobs that they release, fewer than
/// 2^32, and the windows that it is given of `slots` slots.
#[derive(Clone, Copy)]
pub struct ReleasedLevel<'a> {
    pub keep: Keep,
    pub tasks: &'a [Task],
    pub jobs: &'a [Job],
    pub given: &'a [Window],
    pub slots: u64,
    pub ghost legal: { LegalRelease (sporadic_tasks tasks.now) jobs.now },
    pub ghost few: { length jobs.now < 2 ^ 32 },
    pub ghost windows: { AreWindows given.now slots },
}
