ghost use Rattle.std.specs.Prelude.{◌≡◌, IfOk, IfNone, IfSome, false, true};
ghost use Rattle.csv_rows.specs.Decimal.{number};
ghost use Rattle.slot_model.specs.Task.{early_job, sporadic_task};
ghost use Rattle.tree_model.specs.System.{AreDistinct};
ghost use Rattle.release_file.specs.ReleaseFile.{task_names};
ghost use Rattle.release_file.specs.inner.ReleasesTaken.{AreNumbers, fits_numbers, follows_too_soon};

use crate::ReleaseFault;
use crate::release_spelling::{ReleaseFields, ReleaseNumbers};
use slot_model::{Job, Task};
use std::alloc::{AllocError, Global};
use trace_file::Places;
use tree_model::{Named, Part};

/// The jobs of a part so far.
#[derive(Drop)]
pub struct LeafRows<'s> {
    part: &'s Part,
    /// The places of its tasks by their names.
    names: Places<'s>,
    pub jobs: Vec<Job>,
    /// The last job of each task.
    last: Vec<Option<Job>>,
}

/// The places of some tasks by their names.
fn task_places<'s>(alloc: Global, tasks: &'s [Named]) -> Result<Places<'s>, AllocError>
    requires { AreDistinct (task_names tasks.now) }
    ensures { IfOk result (λ places. places ≡ task_names tasks.now) }
{
    let mut places = Places::new(alloc);
    for task in tasks {
        places.add(task.name().as_str().as_bytes())?;
    }
    Ok(places)
}

impl<'s> LeafRows<'s> {
    ghost use Rattle.std.specs.Prelude.{◌≡◌, ◌∷◌, ◌++◌, [], ◌⊎◌, true, IfOk, OnOk, IfErr, None, Some};
    ghost use Rattle.slot_model.specs.Release.{fits_task};
    ghost use Rattle.slot_model.specs.Task.{task_at};
    ghost use Rattle.tree_model.specs.System.{IsPart, own_tasks};
    ghost use Rattle.release_file.specs.declared.fault.ReleaseFault.TheVariants.{NoMemory};
    ghost use Rattle.release_file.specs.ReleaseFile.{part_fault, job_fault};
    ghost use Rattle.release_file.specs.inner.ReleasesTaken.{AreNumbers, IsLeaf, job_in};

    /// Before the first row.
    pub fn new(alloc: Global, part: &'s Part) -> Result<LeafRows<'s>, AllocError>
        requires { IsPart part.now }
        ensures leaf { IfOk result IsLeaf }
        ensures part { IfOk result (λ leaf. leaf.part.now ≡ part.now) }
        ensures jobs { IfOk result (λ leaf. leaf.jobs.items ≡ []) }
    {
        let tasks = part.tasks();
        Ok(LeafRows {
            part,
            names: task_places(alloc, tasks)?,
            jobs: Vec::new(alloc),
            last: vec![in alloc; None; tasks.len()]?,
        })
    }

    /// Takes the job of a row, which has these numbers, where it keeps the rules.
    pub fn keep(
        &mut self,
        fields: &ReleaseFields,
        numbers: &ReleaseNumbers,
        row: u64,
    ) -> Result<(), ReleaseFault>
        requires leaf { IsLeaf self.old }
        requires numbers { AreNumbers fields.now numbers.now }
        ensures part { self.new.part ≡ self.old.part }
        ensures leaf { OnOk result (IsLeaf self.new) }
        ensures jobs { let job = job_in self.old.part.now fields.now numbers.now.at in
            OnOk result (self.new.jobs.items ≡ self.old.jobs.items ++ job ∷ []) }
        ensures kept { let part = self.old.part.now in
            let job = job_in part fields.now numbers.now.at in
            OnOk result (part_fault part self.old.jobs.items job row ≡ None) }
        ensures fault { let part = self.old.part.now in
            let job = job_in part fields.now numbers.now.at in
            IfErr result (λ fault. (fault ≡ NoMemory)
            ⊎ (part_fault part self.old.jobs.items job row ≡ Some fault)) }
    {
        let Some(place) = self.names.find(fields.task) else {
            return Err(ReleaseFault::Unknown(row));
        };
        let task = self.part.tasks()[place].task();
        let Some(job) = job_of(place as u32, &task, fields, numbers) else {
            return Err(ReleaseFault::OutOfRange(row));
        };
        self.put(job, task.period, row)
    }

    /// The same of a job that fits its task, which has this period.
    fn put(&mut self, job: Job, period: u64, row: u64) -> Result<(), ReleaseFault>
        requires leaf { IsLeaf self.old }
        requires fits { fits_task (own_tasks self.old.part.now) job ≡ true }
        requires period { period ≡ (task_at (own_tasks self.old.part.now) job.task).period }
        ensures part { self.new.part ≡ self.old.part }
        ensures leaf { OnOk result (IsLeaf self.new) }
        ensures jobs { OnOk result (self.new.jobs.items ≡ self.old.jobs.items ++ job ∷ []) }
        ensures kept { let tasks = own_tasks self.old.part.now in
            OnOk result (job_fault tasks self.old.jobs.items job row ≡ None) }
        ensures fault { let tasks = own_tasks self.old.part.now in
            IfErr result (λ fault. (fault ≡ NoMemory)
            ⊎ (job_fault tasks self.old.jobs.items job row ≡ Some fault)) }
    {
        if follows_too_soon(period, job, self.last[job.task as usize]) {
            return Err(ReleaseFault::TooEarly(row));
        }
        if self.jobs.push(job).is_err() {
            return Err(ReleaseFault::NoMemory);
        }
        self.last[job.task as usize] = Some(job);
        Ok(())
    }
}

/// The job of a row, of the task at this place, where it fits the task.
fn job_of(place: u32, task: &Task, fields: &ReleaseFields, numbers: &ReleaseNumbers) -> Option<Job>
    requires { AreNumbers fields.now numbers.now }
    ensures made { let f = fields.now in IfSome result (λ job.
        job ≡ early_job place numbers.now.at (number f.work.now) (number f.early.now)) }
    ensures fits { IfSome result
        (λ job. fits_numbers (sporadic_task task.now) job ≡ true) }
    ensures refused { let f = fields.now in IfNone result
        (fits_numbers (sporadic_task task.now)
        (early_job place numbers.now.at (number f.work.now) (number f.early.now)) ≡ false) }
{
    if numbers.work == 0 || numbers.work > task.work || numbers.early > task.jitter {
        return None;
    }
    Some(Job {
        task: place,
        release: numbers.at,
        work: numbers.work,
        early: numbers.early,
    })
}

/// Whether a job comes less than a period after the last one of its task.
fn follows_too_soon(period: u64, job: Job, last: Option<Job>) -> bool
    ensures { result ≡ follows_too_soon period job last }
{
    match last {
        None => false,
        Some(last) => {
            u128::from(job.release) + u128::from(last.early)
                < u128::from(last.release) + u128::from(period) + u128::from(job.early)
        }
    }
}
