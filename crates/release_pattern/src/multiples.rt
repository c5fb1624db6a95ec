ghost use Rattle.std.specs.Prelude.{◌≡◌, ◌^◌, ◌<◌, length, IfOk};
ghost use Rattle.slot_model.specs.Task.{sporadic_task, sporadic_tasks};
ghost use Rattle.slot_model.specs.Release.{LegalRelease, synchronous};
ghost use Rattle.release_pattern.specs.Multiples.{at_multiples, ArePrompt};
ghost use Rattle.release_pattern.specs.inner.Prompt.{prompt_task, prompt_tasks};

use crate::synchronous_jobs;
use slot_model::{Job, Task};
use std::alloc::{AllocError, Global};

/// Each task a job of full work at every multiple of its period below `slots`, released as it
/// arrives. They stand by release, and of one moment by place. Where no task has jitter, it is the
/// synchronous release from 0 on.
pub fn jobs_at_multiples(alloc: Global, tasks: &[Task], slots: u64) -> Result<Vec<Job>, AllocError>
    requires few { length (at_multiples (sporadic_tasks tasks.now) slots) < 2 ^ 32 }
    ensures exact { let T = sporadic_tasks tasks.now in
        IfOk result (λ jobs. jobs.items ≡ at_multiples T slots) }
    ensures prompt { let T = sporadic_tasks tasks.now in
        ArePrompt T → IfOk result (λ jobs. jobs.items ≡ synchronous T 0 slots) }
    ensures legal { IfOk result (λ jobs. LegalRelease (sporadic_tasks tasks.now) jobs.items) }
    ensures few { IfOk result (λ jobs. length jobs.items < 2 ^ 32) }
{
    let prompt = without_jitter(alloc, tasks)?;
    let jobs = synchronous_jobs(alloc, &prompt, 0, slots)?;
    Ok(jobs)
}

/// The same tasks, whose jobs are released as they arrive.
fn without_jitter(alloc: Global, tasks: &[Task]) -> Result<Vec<Task>, AllocError>
    ensures { IfOk result
        (λ prompt. sporadic_tasks prompt.items ≡ prompt_tasks (sporadic_tasks tasks.now)) }
{
    let mut prompt = Vec::with_capacity(alloc, tasks.len())?;
    for task in tasks {
        prompt.push(prompt_task(task))?;
    }
    Ok(prompt)
}

fn prompt_task(task: &Task) -> Task
    ensures { sporadic_task result ≡ prompt_task (sporadic_task task.now) }
{
    Task {
        period: task.period,
        deadline: task.deadline,
        work: task.work,
        jitter: 0,
    }
}
