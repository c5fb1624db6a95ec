ghost use Rattle.std.specs.Prelude.{◌<◌, ◌≤◌, length};
ghost use Rattle.slot_model.specs.Task.{sporadic_tasks, task_at, deadline_of};
ghost use Rattle.guest_sched.specs.Levels.{level_of};
ghost use Rattle.guest_sched.specs.inner.Keep.{IsEnd};

use slot_model::{Job, Task, deadline_moment};

/// Until when a level keeps a job that lacks slots.
#[derive(Clone, Copy, Debug, PartialEq, Eq)]
pub enum Keep {
    UntilDone,
    UntilDeadline,
}

/// The moment from which a level keeps a job no more, or the last moment of all.
pub fn end_moment(keep: Keep, tasks: &[Task], job: &Job) -> u64
    requires named { job.now.task < length tasks.now }
    requires in_jitter { job.now.early ≤ (task_at (sporadic_tasks tasks.now) job.now.task).jitter }
    ensures { IsEnd (level_of keep) (deadline_of (sporadic_tasks tasks.now) job.now) result }
{
    match keep {
        Keep::UntilDone => u64::MAX,
        Keep::UntilDeadline => { u64::try_from(deadline_moment(tasks, job)).unwrap_or(u64::MAX) }
    }
}
