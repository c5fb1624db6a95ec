//! What the tests of several crates make.

ghost use Rattle.std.specs.Prelude.{◌≡◌};

use slot_model::{Job, Task};
use std::fmt::Debug;
use std::process::Abort;
use supply_bound::Periodic;

pub const OUT: &str = "out of range";

pub const MEMORY: &str = "out of memory";

pub fn task(rt: &impl Abort, period: u64, deadline: u64, work: u64) -> Task {
    Task::new(period, deadline, work).expect(rt, OUT)
}

pub fn late_task(rt: &impl Abort, period: u64, deadline: u64, work: u64, jitter: u64) -> Task
    ensures { result.jitter ≡ jitter }
{
    Task::with_jitter(period, deadline, work, jitter).expect(rt, OUT)
}

pub fn periodic(rt: &impl Abort, period: u64, budget: u64) -> Periodic {
    Periodic::new(period, budget).expect(rt, OUT)
}

/// 7 slots in every 50 and 9 in every 75.
pub fn two_tasks(rt: &impl Abort) -> [Task; 2] {
    [task(rt, 50, 50, 7), task(rt, 75, 75, 9)]
}

/// The same, and the first comes up to 5 slots late.
pub fn two_late_tasks(rt: &impl Abort) -> [Task; 2] {
    [late_task(rt, 50, 50, 7, 5), task(rt, 75, 75, 9)]
}

/// Five periods that share no factor, each one slot of work.
pub fn five_long_tasks(rt: &impl Abort) -> [Task; 5] {
    [
        task(rt, 999_999_996, 999_999_996, 1),
        task(rt, 999_999_997, 999_999_997, 1),
        task(rt, 999_999_998, 999_999_998, 1),
        task(rt, 999_999_999, 999_999_999, 1),
        task(rt, 1_000_000_000, 1_000_000_000, 1),
    ]
}

/// Five rates of which 1217 slots in every 4000 are just enough. Their horizon is some 10^22 slots.
pub fn five_rates(rt: &impl Abort) -> [Task; 5] {
    [
        task(rt, 33_333, 33_333, 3_000),
        task(rt, 16_667, 16_667, 1_500),
        task(rt, 21_333, 21_333, 900),
        task(rt, 12_500, 12_500, 700),
        task(rt, 99_991, 99_991, 2_000),
    ]
}

/// A job that arrived `early` slots before it was released.
pub fn job(task: u32, release: u64, work: u64, early: u64) -> Job
    ensures task { result.task ≡ task }
    ensures release { result.release ≡ release }
    ensures early { result.early ≡ early }
{
    Job {
        task,
        release,
        work,
        early,
    }
}

/// The answer is this one.
pub fn expect<T: Copy + PartialEq + Debug>(rt: &impl Abort, found: T, wanted: T) {
    assert_eq!(rt; found, wanted);
}

/// The answer is this one, in the named row of a table.
pub fn expect_at<R: Copy + Debug, T: Copy + PartialEq + Debug>(
    rt: &impl Abort,
    row: R,
    found: T,
    wanted: T,
) {
    assert_eq!(rt; found, wanted, "at {row:?}");
}

/// These are the jobs, each as its task, release, work and how early it arrived.
pub fn assert_jobs(rt: &impl Abort, jobs: &[Job], wanted: &[(u32, u64, u64, u64)]) {
    expect(rt, jobs.len(), wanted.len());
    for (found, (task, release, work, early)) in jobs.iter().zip(wanted) {
        expect(rt, *found, job(*task, *release, *work, *early));
    }
}
