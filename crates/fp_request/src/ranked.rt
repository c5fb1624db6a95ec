ghost use Rattle.std.specs.Prelude.{◌≡◌, ◌≢◌, ◌<◌, ◌≤◌, length, IfSome};
ghost use Rattle.std.specs.Option.{ForSome};
ghost use Rattle.slot_model.specs.declared.sched.Sched.TheVariants.{Edf};
ghost use Rattle.slot_model.specs.Task.{sporadic_tasks};
ghost use Rattle.slot_model.specs.Order.{ranks_above};
ghost use Rattle.window_terms.specs.declared.TheConstants.{KEPT};
ghost use Rattle.fp_request.specs.Terms.{AreRanked, AreRankedTo, IsAbove};

use crate::by_terms::{Above, above_among, rank_terms, request_by};
use slot_model::{Sched, Task};
use window_terms::{KEPT, Term};

/// A level under a fixed priority, with the terms of its tasks as they rank. They are gathered
/// once, and asked for each task; where there are none a task is slower.
#[derive(Clone, Copy)]
pub struct RankedLevel<'a> {
    pub sched: Sched,
    pub tasks: &'a [Task],
    pub terms: &'a [Term],
    pub ghost fixed: { sched ≢ Edf },
    pub ghost are_ranked: { let T = sporadic_tasks tasks.now in
        length terms.now ≡ length tasks.now →
        (length tasks.now ≤ KEPT)
        × AreRankedTo (ranks_above sched T) T (length tasks.now) terms.now },
}

/// Task `i` of such a level. The tasks that rank above it have the first of its terms.
#[derive(Clone, Copy)]
pub struct RankedTask<'a> {
    pub sched: Sched,
    pub tasks: &'a [Task],
    pub i: u32,
    terms: &'a [Term],
    above: Option<Above>,
    pub ghost fixed: { sched ≢ Edf },
    pub ghost i_named: { i < length tasks.now },
    pub ghost are_above: { let T = sporadic_tasks tasks.now in
        ForSome above (λ a. IsAbove (ranks_above sched T) T i a terms.now) },
}

impl<'a> RankedLevel<'a> {
    ghost use Rattle.std.specs.Prelude.{◌≡◌, ◌≤◌, length};
    ghost use Rattle.window_terms.specs.declared.TheConstants.{KEPT};

    /// Gathers the terms of the tasks, where `room` has places for all of them.
    pub fn gather(sched: Sched, tasks: &'a [Task], room: &'a mut [Term]) -> RankedLevel<'a>
        requires fixed { sched ≢ Sched.Edf }
        ensures level { (result.sched ≡ sched) × (result.tasks.now ≡ tasks.now) }
        ensures kept { length tasks.now ≤ length room.old → length tasks.now ≤ KEPT →
            length result.terms.now ≡ length tasks.now }
    {
        if room.len() < tasks.len() || KEPT < tasks.len() {
            return RankedLevel {
                sched,
                tasks,
                terms: &[],
            };
        }
        let terms = &mut room[..tasks.len()];
        rank_terms(sched, tasks, terms);
        RankedLevel {
            sched,
            tasks,
            terms,
        }
    }

    /// The level by terms that stand for its tasks already.
    pub fn of(sched: Sched, tasks: &'a [Task], terms: &'a [Term]) -> RankedLevel<'a>
        requires fixed { sched ≢ Sched.Edf }
        requires ranked { AreRanked sched tasks.now terms.now }
        ensures level { (result.sched ≡ sched) × (result.tasks.now ≡ tasks.now) }
        ensures kept { length terms.now ≡ length tasks.now → length tasks.now ≤ KEPT →
            length result.terms.now ≡ length tasks.now }
    {
        RankedLevel {
            sched,
            tasks,
            terms: if KEPT < tasks.len() { &[] } else { terms },
        }
    }

    /// Task `i`.
    pub fn task(&self, i: u32) -> RankedTask<'a>
        requires { i < length self.now.tasks.now }
        ensures level { (result.sched ≡ self.now.sched)
            × (result.tasks.now ≡ self.now.tasks.now) }
        ensures task { result.i ≡ i }
    {
        RankedTask {
            sched: self.sched,
            tasks: self.tasks,
            i,
            terms: self.terms,
            above: self.above(i),
        }
    }

    /// What is gathered of the tasks that rank above task `i`.
    fn above(&self, i: u32) -> Option<Above>
        requires { i < length self.now.tasks.now }
        ensures { let T = sporadic_tasks self.now.tasks.now in
            IfSome result
            (λ a. IsAbove (ranks_above self.now.sched T) T i a self.now.terms.now) }
    {
        if self.terms.len() != self.tasks.len() {
            return None;
        }
        Some(above_among(self.sched, self.tasks, i as usize, self.tasks.len()))
    }
}

impl<'a> RankedTask<'a> {
    ghost use Rattle.std.specs.Prelude.{◌≡◌, ◌^◌, ◌≤◌, MatchOption};
    ghost use Rattle.slot_model.specs.Bound.{rbf};

    /// The request bound of the task for `t` slots. None exactly where it passes 2^128 - 1.
    pub fn request(&self, t: u128) -> Option<u128>
        ensures { let T = sporadic_tasks self.now.tasks.now in
            let above = ranks_above self.now.sched T in
            MatchOption result (2 ^ 128 ≤ rbf above T self.now.i t)
            (λ r. r ≡ rbf above T self.now.i t) }
    {
        request_by(self.sched, self.tasks, self.i, self.terms, self.above, t)
    }
}
