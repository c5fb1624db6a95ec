ghost use Rattle.std.specs.Prelude.{◌≤◌, length};

use crate::helpers::{expect, jobs_of, tasks_of, told_run};
use server_sched::{run_servers, server_jobs};
use slot_model::{Edf, Job, Task, is_legal};
use std::alloc::{AllocError, Global};
use std::test::Fail;

/// The jobs of a few servers in 9 slots.
fn released(alloc: Global, tasks: &[Task]) -> Result<Vec<Job>, AllocError>
    requires { length tasks.now ≤ 100 }
{
    server_jobs(alloc, tasks, 9)
}

/// Two servers of 3 in 4 and of 4 in 6 slots ask for more than there is: the second is given up at
/// slot 6 and the first at slot 8, each a slot short.
#[test]
fn servers_release_once_a_period(rt: HostRuntime) -> Result<(), Fail> {
    let alloc = rt.alloc();
    let tasks = tasks_of(alloc, &[(4, 3), (6, 4)])?;
    assert!(rt; tasks.len() == 2);
    let jobs = released(alloc, &tasks)?;
    let wanted = [(0, 0, 3), (1, 0, 4), (0, 4, 3), (1, 6, 4), (0, 8, 3)];
    assert!(rt; jobs == jobs_of(alloc, &wanted)?);
    assert!(rt; is_legal(&tasks, &jobs) && jobs.len() < 1000);
    let run = run_servers(alloc, &tasks, &jobs, &Edf, &[true; 9])?;
    expect(&rt, told_run(alloc, &run)?, "000111223");
    Ok(())
}
