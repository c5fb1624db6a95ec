ghost use Rattle.std.specs.Prelude.{◌≡◌, ◌⊎◌, ℕ, ◌+◌, ◌*◌, ◌-◌, ◌^◌, ◌<◌, ◌≤◌, min, true, List, [], ◌∷◌, ◌++◌, length, slice_index, IfOk, OnOk};
ghost use Rattle.slot_model.specs.Task.{sporadic_tasks, task_at};
ghost use Rattle.slot_model.specs.Release.{LegalRelease, releases_now, release_of, releases_at, synchronous};
ghost use Rattle.slot_model.specs.declared.job.Job.{Job as AnyJob};
ghost use Rattle.release_pattern.specs.Due.{IsNext, NoneRelease};
ghost use Rattle.release_pattern.specs.inner.Due.{AreDue, IsDue, IsSoonest, first_room};

use slot_model::{Job, Task};
use std::alloc::{AllocError, Global};

/// So many tasks that stand side by side make a group, whose next release is known.
const GROUP: usize = 8;

/// The synchronous release: every task releases at `start`, with its whole jitter behind it, and
/// then as its jobs arrive, once a period, within `span` slots, always with full work. The jobs
/// stand by release, and of one moment by place. It costs time for each job, and none for a slot.
pub fn synchronous_jobs(
    alloc: Global,
    tasks: &[Task],
    start: u64,
    span: u64,
) -> Result<Vec<Job>, AllocError>
    requires few { length (synchronous (sporadic_tasks tasks.now) start span) < 2 ^ 32 }
    requires in_time { start + span < 2 ^ 64 }
    ensures exact { let T = sporadic_tasks tasks.now in
        IfOk result (λ jobs. jobs.items ≡ synchronous T start span) }
    ensures legal { IfOk result (λ jobs. LegalRelease (sporadic_tasks tasks.now) jobs.items) }
    ensures few { IfOk result (λ jobs. length jobs.items < 2 ^ 32) }
{
    let mut jobs = Vec::with_capacity(alloc, releases_of(tasks, span) as usize)?;
    let mut due = Due::new(alloc, tasks)?;
    let mut after = 0;
    while after < span {
        after = due.push_moment(&mut jobs, tasks, start, after)?;
    }
    Ok(jobs)
}

/// The same of few tasks within 1,000,000 slots.
pub fn jobs_in_reach(
    alloc: Global,
    tasks: &[Task],
    start: u64,
    span: u64,
) -> Result<Vec<Job>, AllocError>
    requires in_reach { start + span ≤ 1000000 }
    requires few { length tasks.now ≤ 256 }
    ensures exact { let T = sporadic_tasks tasks.now in
        IfOk result (λ jobs. jobs.items ≡ synchronous T start span) }
    ensures legal { IfOk result (λ jobs. LegalRelease (sporadic_tasks tasks.now) jobs.items) }
    ensures few { IfOk result (λ jobs. length jobs.items ≤ 256000000) }
{
    synchronous_jobs(alloc, tasks, start, span)
}

/// About how many jobs tasks release within `span` slots: no more than one each too many.
fn releases_of(tasks: &[Task], span: u64) -> u64
    ensures { result ≡ min (first_room tasks.now span) (2 ^ 64 - 1) }
{
    let mut count: u64 = 0;
    for task in tasks {
        count = count.saturating_add(span / task.period).saturating_add(1);
    }
    count
}

/// When the next jobs are released, in slots after the start.
#[derive(Drop)]
pub struct Due {
    /// The next release of each task.
    tasks: Vec<u64>,
    /// The first of these in each group.
    groups: Vec<u64>,
    /// The first place within each group where that stands.
    offsets: Vec<usize>,
    /// The first of all, and the first group that has it.
    next: Turn,
}

impl Due {
    /// All tasks release at the start.
    fn new(alloc: Global, tasks: &[Task]) -> Result<Due, AllocError>
        ensures { IfOk result (λ due. IsDue (sporadic_tasks tasks.now) 0 due) }
    {
        let count = tasks.len().div_ceil(GROUP);
        let groups = vec![in alloc; 0; count]?;
        let next = soonest(&groups, 0, count);
        Ok(Due {
            tasks: vec![in alloc; 0; tasks.len()]?,
            groups,
            offsets: vec![in alloc; 0; count]?,
            next,
        })
    }

    /// Adds what the tasks release at a moment, and tells the next at which one may release.
    fn push_moment(
        &mut self,
        jobs: &mut Vec<Job>,
        tasks: &[Task],
        start: u64,
        after: u64,
    ) -> Result<u64, AllocError>
        requires few { length tasks.now < 2 ^ 32 }
        requires in_time { start + after < 2 ^ 64 - 1 }
        requires due { IsDue (sporadic_tasks tasks.now) after self.old }
        ensures jobs { let T = sporadic_tasks tasks.now in
            OnOk result (jobs.new.items ≡ releases_at T start after (length T) jobs.old.items) }
        ensures later { IfOk result (λ next. after < next) }
        ensures none { let T = sporadic_tasks tasks.now in
            IfOk result (λ next. NoneRelease T (after + 1) next) }
        ensures due { IfOk result (λ next. IsDue (sporadic_tasks tasks.now) next self.new) }
    {
        let groups = self.groups.len();
        let mut turn = self.next;
        while turn.moment == after {
            let group = turn.place;
            let first = Turn {
                moment: after,
                place: GROUP * group + self.offsets[group],
            };
            let next = self.push_group(jobs, tasks, group, first, start, after)?;
            self.groups[group] = next.moment;
            self.offsets[group] = next.place - GROUP * group;
            turn = soonest(&self.groups, 0, groups);
        }
        self.next = turn;
        Ok(turn.moment)
    }

    /// Adds what the tasks of a group release at a moment, and tells the next turn of the group.
    /// `first` is its turn so far.
    fn push_group(
        &mut self,
        jobs: &mut Vec<Job>,
        tasks: &[Task],
        group: usize,
        first: Turn,
        start: u64,
        after: u64,
    ) -> Result<Turn, AllocError>
        requires few { length tasks.now < 2 ^ 32 }
        requires in_time { start + after < 2 ^ 64 - 1 }
        requires in_tasks { 8 * group ≤ length tasks.now }
        requires due { AreDue (sporadic_tasks tasks.now) (8 * group) after self.old.tasks.items }
        requires first { let until = min (8 * group + 8) (length tasks.now) in
            IsSoonest self.old.tasks.items (8 * group) until first }
        ensures jobs { let T = sporadic_tasks tasks.now in
            (earlier : List AnyJob) →
            jobs.old.items ≡ releases_at T start after (8 * group) earlier →
            OnOk result (jobs.new.items ≡ releases_at T start after
            (min (8 * group + 8) (length T)) earlier) }
        ensures due { let T = sporadic_tasks tasks.now in
            OnOk result (AreDue T (8 * group + 8) after self.new.tasks.items) }
        ensures same { OnOk result ((i : ℕ) → (i < 8 * group) ⊎ (8 * group + 8 ≤ i) →
            slice_index self.new.tasks.items i ≡ slice_index self.old.tasks.items i) }
        ensures groups { self.new.groups ≡ self.old.groups }
        ensures offsets { self.new.offsets ≡ self.old.offsets }
        ensures later { IfOk result (λ next. after < next.moment) }
        ensures next { let until = min (8 * group + 8) (length tasks.now) in
            IfOk result (λ next. IsSoonest self.new.tasks.items (8 * group) until next) }
    {
        let from = GROUP * group;
        let until = from + GROUP.min(tasks.len() - from);
        let mut turn = first;
        while turn.moment == after {
            let place = turn.place;
            let next = push_release(jobs, tasks, place, start, after)?;
            self.tasks[place] = next;
            turn = soonest(&self.tasks, from, until);
        }
        Ok(turn)
    }
}

/// The least of some moments, and the first place where it stands.
#[derive(Clone, Copy)]
pub struct Turn {
    pub moment: u64,
    pub place: usize,
}

/// The least moment from one place to another, or the last of all where there is none.
fn soonest(moments: &[u64], from: usize, until: usize) -> Turn
    requires in_order { from ≤ until }
    requires in_moments { until ≤ length moments.now }
    ensures { IsSoonest moments.now from until result }
{
    let mut turn = Turn {
        moment: u64::MAX,
        place: from,
    };
    for place in from..until {
        let moment = moments[place];
        if moment < turn.moment {
            turn = Turn { moment, place };
        }
    }
    turn
}

/// Adds the job that the task at `place` releases at a moment, and tells its next release.
fn push_release(
    jobs: &mut Vec<Job>,
    tasks: &[Task],
    place: usize,
    start: u64,
    after: u64,
) -> Result<u64, AllocError>
    requires is_task { place < length tasks.now }
    requires few { length tasks.now < 2 ^ 32 }
    requires in_time { start + after < 2 ^ 64 - 1 }
    requires due { releases_now (task_at (sporadic_tasks tasks.now) place) after ≡ true }
    ensures job { let T = sporadic_tasks tasks.now in
        OnOk result (jobs.new.items ≡ jobs.old.items ++ release_of T start after place ∷ []) }
    ensures next { let T = sporadic_tasks tasks.now in
        IfOk result (λ next. IsNext (task_at T place) (after + 1) next) }
{
    let task = tasks[place];
    let early = if after == 0 { task.jitter } else { 0 };
    jobs.push(Job {
        task: place as u32,
        release: start + after,
        work: task.work,
        early,
    })?;
    Ok(after.saturating_add(task.period - early))
}
