ghost use Rattle.std.specs.Prelude.{◌≡◌, ℕ, ◌+◌, ◌-◌, ◌<◌, ◌≤◌, ◌^◌, ◌↔◌, true, length, map, slice_index, All, IsTrue, IfOk, IfSome, OnOk, MatchOption, Some, None};
ghost use Rattle.slot_model.specs.Task.{sporadic_tasks, task_at};
ghost use Rattle.guest_sched.specs.inner.Releases.{release_at, AreReleases};
ghost use Rattle.guest_sched.specs.Levels.{level_of};
ghost use Rattle.guest_sched.specs.inner.Keep.{AreEnds};
ghost use Rattle.guest_sched.specs.inner.Keys.{AreByKey};
ghost use Rattle.guest_sched.specs.inner.Ready.{IsReady, HaveCome, AreToCome, HasKeys, GoesFirst, IsServed, AllEndAfter, IsSteady, left_after};

use crate::choice::first_unbeaten;
use crate::keep::{Keep, end_moment};
use crate::keys::Keys;
use crate::queue::Queue;
use crate::releases::{Release, releases};
use crate::spans::Span;
use slot_model::{Job, Order, Task};
use std::alloc::{AllocError, Global};

/// The jobs of a level between two events.
#[derive(Drop)]
pub struct Ready {
    /// The slots before this moment are served.
    time: u64,
    /// All jobs, by release.
    releases: Vec<Release>,
    /// How many of the releases have come.
    released: usize,
    /// The slots that each job lacks.
    left: Vec<u64>,
    /// The moment from which each job is kept no more.
    ends: Vec<u64>,
    /// The keys of the jobs.
    keys: Keys,
    /// The places of the jobs that have come, lack slots and are kept, by their keys.
    ready: Queue,
    /// No ready job ends before this moment.
    soonest: u64,
}

impl Ready {
    /// The jobs before the first slot.
    pub fn new<O: Order>(
        alloc: Global,
        keep: Keep,
        order: &O,
        tasks: &[Task],
        jobs: &[Job],
    ) -> Result<Ready, AllocError>
        requires few { length jobs.now < 2 ^ 32 }
        requires works { All (λ j. 1 ≤ j.work) jobs.now }
        requires named { All (λ a. a.task < length tasks.now) jobs.now }
        requires in_jitter { let T = sporadic_tasks tasks.now in
            All (λ a. a.early ≤ (task_at T a.task).jitter) jobs.now }
        ensures state { IfOk result (λ r. IsReady r) }
        ensures releases { IfOk result (λ r. AreReleases jobs.now r.releases.items) }
        ensures time { IfOk result (λ r. r.time ≡ 0) }
        ensures none_come { IfOk result (λ r. r.released ≡ 0) }
        ensures left { IfOk result (λ r. r.left.items ≡ map (λ j. j.work) jobs.now) }
        ensures ends { let T = sporadic_tasks tasks.now in
            IfOk result (λ r. AreEnds (level_of keep) T jobs.now r.ends.items) }
        ensures keys { let before = O.goes order.now (sporadic_tasks tasks.now) in
            IfOk result (λ r. HasKeys before jobs.now r) }
    {
        Ok(Ready {
            time: 0,
            releases: releases(alloc, jobs)?,
            released: 0,
            left: jobs.iter().map(|job| job.work).collect(alloc)?,
            ends: ends(alloc, keep, tasks, jobs)?,
            keys: Keys::new(alloc, order, tasks, jobs)?,
            ready: Queue::new(alloc, jobs.len())?,
            soonest: u64::MAX,
        })
    }

    pub fn time(&self) -> u64
        ensures { result ≡ self.now.time }
    {
        self.time
    }

    /// Lets the jobs come that are released by now, and gives those up that end by then. It is a
    /// part of the loop over spans, since at most of them no job comes and none ends.
    #[inline(always)]
    pub fn catch_up(&mut self) -> Result<(), AllocError>
        requires state { IsReady self.old }
        requires come { HaveCome self.old self.old.time }
        requires in_time { self.old.time < 2 ^ 64 - 1 }
        ensures state { OnOk result (IsReady self.new) }
        ensures come { OnOk result (HaveCome self.new self.old.time) }
        ensures to_come { OnOk result (AreToCome self.new self.old.time) }
        ensures none_over { OnOk result (self.new.time < self.new.soonest) }
        ensures time { self.new.time ≡ self.old.time }
        ensures releases { self.new.releases ≡ self.old.releases }
        ensures left { self.new.left ≡ self.old.left }
        ensures ends { self.new.ends ≡ self.old.ends }
        ensures keys { self.new.keys ≡ self.old.keys }
    {
        while self.is_next_due() {
            self.admit_next()?;
        }
        self.give_up();
        Ok(())
    }

    fn is_next_due(&self) -> bool
        ensures { IsTrue result ↔ ((self.now.released < length self.now.releases.items) ×
            ((release_at self.now.releases.items self.now.released).release ≤ self.now.time)) }
    {
        self.released < self.releases.len() && self.releases[self.released].release <= self.time
    }

    /// Lets the next job come.
    #[inline(never)]
    fn admit_next(&mut self) -> Result<(), AllocError>
        requires state { IsReady self.old }
        requires some { self.old.released < length self.old.releases.items }
        ensures state { OnOk result (IsReady self.new) }
        ensures time { self.new.time ≡ self.old.time }
        ensures one_more { OnOk result (self.new.released ≡ self.old.released + 1) }
        ensures releases { self.new.releases ≡ self.old.releases }
        ensures left { self.new.left ≡ self.old.left }
        ensures ends { self.new.ends ≡ self.old.ends }
        ensures keys { self.new.keys ≡ self.old.keys }
    {
        let place = self.releases[self.released].place;
        let at = self.keys.count_before(self.ready.as_slice(), place);
        self.ready.insert(at, place)?;
        self.released += 1;
        self.soonest = self.soonest.min(self.ends[place as usize]);
        Ok(())
    }

    /// Gives the jobs up that end by now.
    fn give_up(&mut self)
        requires state { IsReady self.old }
        requires in_time { self.old.time < 2 ^ 64 - 1 }
        ensures state { IsReady self.new }
        ensures none_over { self.new.time < self.new.soonest }
        ensures time { self.new.time ≡ self.old.time }
        ensures releases { self.new.releases ≡ self.old.releases }
        ensures released { self.new.released ≡ self.old.released }
        ensures left { self.new.left ≡ self.old.left }
        ensures ends { self.new.ends ≡ self.old.ends }
        ensures keys { self.new.keys ≡ self.old.keys }
    {
        if self.time < self.soonest {
            return;
        }
        while let Some(at) = find_ended(&self.ends, self.ready.as_slice(), self.time) {
            self.ready.remove(at);
        }
        self.soonest = soonest_end(&self.ends, self.ready.as_slice());
    }

    /// The next span where all slots up to `until` are given: the job that has its slots, if there
    /// is one, which is served.
    pub fn serve<O: Order>(&mut self, order: &O, tasks: &[Task], jobs: &[Job], until: u64) -> Span
        requires state { IsReady self.old }
        requires to_come { AreToCome self.old self.old.time }
        requires none_over { self.old.time < self.old.soonest }
        requires all_jobs { length self.old.left.items ≡ length jobs.now }
        requires named { All (λ a. a.task < length tasks.now) jobs.now }
        requires in_jitter { let T = sporadic_tasks tasks.now in
            All (λ a. a.early ≤ (task_at T a.task).jitter) jobs.now }
        requires keys { let before = O.goes order.now (sporadic_tasks tasks.now) in
            HasKeys before jobs.now self.old }
        requires some { self.old.time < until }
        ensures from { result.from ≡ self.old.time }
        ensures some { self.old.time < result.until }
        ensures time { self.new.time ≡ result.until }
        ensures in_time { result.until ≤ until }
        ensures served { let before = O.goes order.now (sporadic_tasks tasks.now) in
            IsServed before jobs.now self.old.ready true result.job }
        ensures steady { IsSteady self.old result.until }
        ensures enough { IfSome result.job (λ j.
            result.until - self.old.time ≤ slice_index self.old.left.items j) }
        ensures left { self.new.left.items ≡ left_after self.old.left.items result.job
            (result.until - self.old.time) }
        ensures state { IsReady self.new }
        ensures releases { self.new.releases ≡ self.old.releases }
        ensures released { self.new.released ≡ self.old.released }
        ensures ends { self.new.ends ≡ self.old.ends }
        ensures keys { self.new.keys ≡ self.old.keys }
    {
        let until = self.steady_until(until);
        match self.choose(order, tasks, jobs) {
            None => self.pass(until),
            Some(at) => self.give(at, until),
        }
    }

    /// Serves no job up to `until`.
    pub fn pass(&mut self, until: u64) -> Span
        requires state { IsReady self.old }
        requires later { self.old.time ≤ until }
        ensures span { result ≡ record { from = self.old.time; until = until; job = None } }
        ensures state { IsReady self.new }
        ensures rest { self.new ≡ record self.old { time = until } }
    {
        let from = self.time;
        self.time = until;
        Span {
            from,
            until,
            job: None,
        }
    }

    /// The last moment up to `until` before which no job comes or ends.
    fn steady_until(&self, until: u64) -> u64
        ensures at_most { result ≤ until }
        ensures steady { IsSteady self.now result }
        ensures later { (x : ℕ) → x < until → x < self.now.soonest → AreToCome self.now x →
            x < result }
    {
        let until = until.min(self.soonest);
        if self.released < self.releases.len() {
            until.min(self.releases[self.released].release)
        } else {
            until
        }
    }

    /// Where the first of the ready jobs stands that no ready job goes before.
    fn choose<O: Order>(&self, order: &O, tasks: &[Task], jobs: &[Job]) -> Option<usize>
        requires in_jobs { All (λ p. p < length jobs.now) self.now.ready }
        requires named { All (λ a. a.task < length tasks.now) jobs.now }
        requires in_jitter { let T = sporadic_tasks tasks.now in
            All (λ a. a.early ≤ (task_at T a.task).jitter) jobs.now }
        requires keys { let before = O.goes order.now (sporadic_tasks tasks.now) in
            HasKeys before jobs.now self.now }
        requires by_key { AreByKey self.now.keys.all.items self.now.ready }
        ensures { let before = O.goes order.now (sporadic_tasks tasks.now) in
            let ready = self.now.ready in
            MatchOption result (length ready ≡ 0) (λ i. (i < length ready) ×
            GoesFirst before jobs.now ready (slice_index ready i)) }
    {
        if !self.keys.are_told {
            return first_unbeaten(order, tasks, jobs, self.ready.as_slice());
        }
        if self.ready.as_slice().is_empty() {
            None
        } else {
            Some(0)
        }
    }

    /// Gives the slots up to `until` to the ready job at `at`, as far as it lacks them.
    fn give(&mut self, at: usize, until: u64) -> Span
        requires state { IsReady self.old }
        requires is_ready { at < length self.old.ready }
        requires some { self.old.time < until }
        ensures from { result.from ≡ self.old.time }
        ensures some { self.old.time < result.until }
        ensures time { self.new.time ≡ result.until }
        ensures in_time { result.until ≤ until }
        ensures job { result.job ≡ Some (slice_index self.old.ready at) }
        ensures enough { let place = slice_index self.old.ready at in
            result.until - self.old.time ≤ slice_index self.old.left.items place }
        ensures left { let place = slice_index self.old.ready at in
            self.new.left.items ≡ left_after self.old.left.items (Some place)
            (result.until - self.old.time) }
        ensures state { IsReady self.new }
        ensures releases { self.new.releases ≡ self.old.releases }
        ensures released { self.new.released ≡ self.old.released }
        ensures ends { self.new.ends ≡ self.old.ends }
        ensures keys { self.new.keys ≡ self.old.keys }
    {
        let place = self.ready.get(at);
        let from = self.time;
        let lacks = self.left[place as usize];
        let slots = lacks.min(until - from);
        let end = from + slots;
        self.time = end;
        self.left[place as usize] = lacks - slots;
        if slots == lacks {
            self.ready.remove(at);
        }
        Span {
            from,
            until: end,
            job: Some(place),
        }
    }
}

/// The moments from which each job is kept no more.
fn ends(alloc: Global, keep: Keep, tasks: &[Task], jobs: &[Job]) -> Result<Vec<u64>, AllocError>
    requires named { All (λ a. a.task < length tasks.now) jobs.now }
    requires in_jitter { let T = sporadic_tasks tasks.now in
        All (λ a. a.early ≤ (task_at T a.task).jitter) jobs.now }
    ensures { let T = sporadic_tasks tasks.now in
        IfOk result (λ v. AreEnds (level_of keep) T jobs.now v.items) }
{
    let mut ends = Vec::with_capacity(alloc, jobs.len())?;
    for job in jobs {
        ends.push(end_moment(keep, tasks, job))?;
    }
    Ok(ends)
}

/// Where a ready job stands that ends by `now`.
fn find_ended(ends: &[u64], ready: &[u32], now: u64) -> Option<usize>
    requires { All (λ p. p < length ends.now) ready.now }
    ensures { MatchOption result (AllEndAfter ends.now ready.now now) (λ i. (i < length ready.now) ×
        (slice_index ends.now (slice_index ready.now i) ≤ now)) }
{
    for at in 0..ready.len() {
        if ends[ready[at] as usize] <= now {
            return Some(at);
        }
    }
    None
}

/// The least end of a ready job, or the last moment of all.
fn soonest_end(ends: &[u64], ready: &[u32]) -> u64
    requires { All (λ p. p < length ends.now) ready.now }
    ensures least { (k : ℕ) → k < length ready.now →
        result ≤ slice_index ends.now (slice_index ready.now k) }
    ensures after { (x : ℕ) → x < 2 ^ 64 - 1 → AllEndAfter ends.now ready.now x → x < result }
{
    let mut soonest = u64::MAX;
    for place in ready {
        soonest = soonest.min(ends[*place as usize]);
    }
    soonest
}
