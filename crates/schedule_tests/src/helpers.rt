//! What the tests of several crates make.

ghost use Rattle.std.specs.Prelude.{IfOk};
ghost use Rattle.guest_sched.specs.Spans.{AreWindows};
ghost use Rattle.tree_model.specs.Plans.{IsPlan};

use compose_tree::assign;
use guest_sched::Window;
use slot_model::{Job, Task};
use std::alloc::{AllocError, Global};
use std::fmt::Write;
use std::process::Abort;
use system_file::read_system;
use tree_model::{Plan, System};

pub const MEMORY: &str = "out of memory";

/// A, with extra time, and B on cpu0, 3 and 4 slots in every 10, and C on cpu1, 1 in every 4.
pub const HOST: &str = "format = 1
core = [{name = 'cpu0', sched = 'edf'}, {name = 'cpu1', sched = 'edf'}]
[[part]]
name = 'A'
parent = 'cpu0'
sched = 'edf'
period = 10
budget = 3
extra = true
task = [{name = 't', period = 100, work = 1}]
[[part]]
name = 'B'
parent = 'cpu0'
sched = 'edf'
period = 10
budget = 4
task = [{name = 't', period = 100, work = 1}]
[[part]]
name = 'C'
parent = 'cpu1'
sched = 'edf'
period = 4
budget = 1
task = [{name = 't', period = 100, work = 1}]
";

/// The system of a file.
pub fn system_of(rt: &impl Abort, alloc: Global, text: &str) -> System {
    read_system(alloc, text.as_bytes()).expect(rt, "a system file")
}

/// The budgets that its file gives.
pub fn planned(rt: &impl Abort, alloc: Global, sys: &System) -> Plan
    ensures { IsPlan sys.now result }
{
    match assign(alloc, sys) {
        Ok(plan) => plan,
        Err(_) => panic!(rt; "no budgets"),
    }
}

/// Tasks of these periods, which are their deadlines, and works.
pub fn tasks_of(alloc: Global, rows: &[(u64, u64)]) -> Result<Vec<Task>, AllocError> {
    let mut tasks = Vec::new(alloc);
    for (period, work) in rows {
        if let Some(task) = Task::new(*period, *period, *work) {
            tasks.push(task)?;
        }
    }
    Ok(tasks)
}

/// Jobs of these tasks, releases and works.
pub fn jobs_of(alloc: Global, rows: &[(u32, u64, u64)]) -> Result<Vec<Job>, AllocError> {
    let mut jobs = Vec::new(alloc);
    for (task, release, work) in rows {
        jobs.push(Job {
            task: *task,
            release: *release,
            work: *work,
            early: 0,
        })?;
    }
    Ok(jobs)
}

/// Windows from and up to these slots, which stand in order below `slots`.
pub fn windows_of(
    rt: &impl Abort,
    alloc: Global,
    rows: &[(u64, u64)],
    slots: u64,
) -> Result<Vec<Window>, AllocError>
    ensures { IfOk result (λ windows. AreWindows windows.items slots) }
{
    let mut windows = Vec::new(alloc);
    let mut end = 0;
    for row in rows {
        let (from, until) = *row;
        assert!(rt; end <= from && from < until && until <= slots);
        windows.push(Window { from, until })?;
        end = until;
    }
    Ok(windows)
}

/// A run as a text: at each slot the place of the job that has it, `.` where none has.
pub fn told_run(alloc: Global, run: &[Option<u32>]) -> Result<String, AllocError> {
    let mut text = String::new(alloc);
    for held in run {
        match held {
            Some(place) => write!(text, "{place}")?,
            None => write!(text, ".")?,
        }
    }
    Ok(text)
}

pub fn expect(rt: &impl Abort, told: String, wanted: &str) {
    assert!(rt; told.as_str() == wanted);
}
