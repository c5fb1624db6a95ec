ghost use Rattle.std.specs.Prelude.{◌≡◌, ◌≢◌, ◌<◌, length, slice_set};
ghost use Rattle.fp_request.specs.Terms.{AreRanked};

use crate::by_terms::{above_among, made_of, rank_terms};
use crate::rank::rank_of;
use slot_model::{Sched, Task};
use window_terms::{KEPT, Term};

/// Writes the terms of all tasks as they rank, where there are as many places, and not too many.
pub fn rank_all(sched: Sched, tasks: &[Task], terms: &mut [Term])
    requires fixed { sched ≢ Sched.Edf }
    ensures long { length terms.new ≡ length terms.old }
    ensures ranked { AreRanked sched tasks.now terms.new }
{
    if terms.len() == tasks.len() && tasks.len() <= KEPT {
        rank_terms(sched, tasks, terms);
    }
}

/// Puts another task in place `i`. Where it ranks as the one before, its term alone is written, in
/// place of that task's, and else all terms.
pub fn set_ranked(sched: Sched, tasks: &mut [Task], terms: &mut [Term], i: usize, task: Task)
    requires fixed { sched ≢ Sched.Edf }
    requires ranked { AreRanked sched tasks.old terms.old }
    requires i_named { i < length tasks.old }
    ensures set { tasks.new ≡ slice_set tasks.old i task }
    ensures long { length terms.new ≡ length terms.old }
    ensures ranked { AreRanked sched tasks.new terms.new }
{
    let before = rank_of(sched, tasks, i);
    tasks[i] = task;
    if rank_of(sched, tasks, i) != before {
        rank_all(sched, tasks, terms);
    } else if terms.len() == tasks.len() && tasks.len() <= KEPT {
        let place = above_among(sched, tasks, i, tasks.len()).terms;
        terms[place] = made_of(&task);
    }
}
