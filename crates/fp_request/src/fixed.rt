ghost use Rattle.std.specs.Prelude.{◌≡◌, ◌≢◌, ◌<◌, ◌≤◌, length, MatchOption};
ghost use Rattle.slot_model.specs.Task.{sporadic_tasks, task_at};
ghost use Rattle.slot_model.specs.Order.{before_of, arrives_before};
ghost use Rattle.fp_request.specs.Keys.{arrival_of, fixed_key};
ghost use Rattle.fp_request.specs.Ranks.{order_laws};

use crate::rank::{rank_of, ranks};
use slot_model::{Job, Key, Order, Sched, Task};
use std::marker::Model;

/// A fixed order of jobs: the job whose task ranks above goes first, and the jobs of one task go as
/// they arrived. Contracts see it as the `Sched` that it was made of.
#[derive(Clone, Copy, Debug, PartialEq, Eq)]
pub struct Fixed {
    sched: Sched,
}

impl Model for Fixed {
    ghost use Rattle.std.specs.Prelude.{◌≢◌};
    ghost use Rattle.slot_model.specs.declared.sched.Sched.{Sched};
    ghost use Rattle.slot_model.specs.declared.sched.Sched.TheVariants.{Edf};

    ghost Value = { Sched };

    ghost view = { λ f. f.sched };

    ghost invariant = { λ f. f.sched ≢ Edf };

    ghost inverse = { λ s. record { sched = s } };
}

impl Fixed {
    /// None exactly where `sched` is `Edf`, which ranks no task.
    pub fn new(sched: Sched) -> Option<Fixed>
        ensures { MatchOption result (sched ≡ Sched.Edf) (λ f. (f ≡ sched) × (sched ≢ Sched.Edf)) }
    {
        match sched {
            Sched::Edf => None,
            _ => Some(Fixed { sched }),
        }
    }
}

impl Order for Fixed {
    ghost goes = { λ f tasks a b. before_of f tasks a b };

    ghost key_of = { λ f tasks job. fixed_key f tasks job };

    fn before(&self, tasks: &[Task], a: &Job, b: &Job) -> bool {
        comes_first(self.sched, tasks, a, b)
    }

    #[tactic(auto, using(crate::proofs::Keyed::fixed_keyed))]
    fn key(&self, tasks: &[Task], job: &Job) -> Option<Key> {
        Some(Key {
            rank: rank_of(self.sched, tasks, job.task as usize) as u128,
            place: job.task,
            arrival: arrival_of(tasks, job),
        })
    }

    ghost laws = { λ f. order_laws f };
}

fn comes_first(sched: Sched, tasks: &[Task], a: &Job, b: &Job) -> bool
    requires fixed { sched ≢ Sched.Edf }
    requires a_named { a.now.task < length tasks.now }
    requires b_named { b.now.task < length tasks.now }
    ensures { result ≡ before_of sched (sporadic_tasks tasks.now) a.now b.now }
{
    if a.task == b.task {
        return is_sooner(a, b);
    }
    ranks(sched, tasks, a.task as usize, b.task as usize)
}

// An arrival may lie before moment 0, so nothing is subtracted.
fn is_sooner(a: &Job, b: &Job) -> bool
    ensures { result ≡ arrives_before a.now b.now }
{
    (a.release as u128 + b.early as u128) < b.release as u128 + a.early as u128
}

// The arrival, counted from as many slots before moment 0 as the jitter has.
fn arrival_of(tasks: &[Task], job: &Job) -> u128
    requires named { job.now.task < length tasks.now }
    requires in_jitter { job.now.early ≤ (task_at (sporadic_tasks tasks.now) job.now.task).jitter }
    ensures { result ≡ arrival_of (sporadic_tasks tasks.now) job.now }
{
    job.release as u128 + (tasks[job.task as usize].jitter - job.early) as u128
}
