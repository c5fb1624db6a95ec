ghost use Rattle.std.specs.Prelude.{◌≡◌, ◌↔◌, ℕ, ◌+◌, ◌*◌, ◌-◌, ◌^◌, ◌<◌, ◌≤◌, min, MatchOption, IfSome, IsTrue, All, length, take};
ghost use Rattle.slot_model.specs.Bound.{demand_of};
ghost use Rattle.slot_model.specs.Task.{sporadic_task};
ghost use Rattle.window_terms.specs.Asked.{asked_by, IsNear};
ghost use Rattle.edf_demand.specs.Terms.{IsGathered};
ghost use Rattle.edf_demand.specs.inner.Exchanged.{Serves};

use slot_model::Task;
use window_terms::{Term, near, room_of};

/// How many terms were written, and for how many tasks they stand. Up to the near window no term
/// needs more than its reciprocal, and 64 bits hold the sum.
#[derive(Clone, Copy)]
pub struct Gathered {
    pub terms: usize,
    pub tasks: usize,
    pub near: u64,
}

/// Writes the terms of as many of the first tasks as `into` has places for: a run of neighbouring
/// tasks of one period and one room (the deadline less the jitter) has one term. The slack is what
/// that room leaves of the period.
pub fn gather(tasks: &[Task], into: &mut [Term]) -> Gathered
    ensures long { length into.new ≡ length into.old }
    ensures stand { IsGathered result into.new tasks.now }
    ensures room { min (length into.old) (length tasks.now) ≤ result.tasks }
{
    let mut terms = 0;
    for (k, task) in tasks.iter().enumerate() {
        let Some(more) = add(task, terms, into) else {
            return counted(&into[..terms], k);
        };
        terms = more;
    }
    counted(&into[..terms], tasks.len())
}

/// These terms stand for so many tasks. The near window is short enough that 64 bits hold what all
/// ask for there, since no task asks for more slots than a window has.
fn counted(terms: &[Term], tasks: usize) -> Gathered
    ensures numbers { (result.terms ≡ length terms.now) × (result.tasks ≡ tasks) }
    ensures near { All (λ term. IsNear term result.near) terms.now }
    ensures fits { tasks * result.near < 2 ^ 64 }
{
    let most = u64::MAX / tasks.max(1) as u64;
    Gathered {
        terms: terms.len(),
        tasks,
        near: near(terms, most),
    }
}

/// Adds a task to so many terms: to the last of them, or as one of its own. How many they are then.
fn add(task: &Task, terms: usize, into: &mut [Term]) -> Option<usize>
    requires { terms ≤ length into.old }
    ensures long { length into.new ≡ length into.old }
    ensures more { MatchOption result
        ((into.new ≡ into.old) × (terms ≡ length into.old))
        (λ more. (more ≤ terms + 1) × (more ≤ length into.new) × ((t : ℕ) →
        asked_by (take more into.new) t
        ≡ asked_by (take terms into.old) t + demand_of (sporadic_task task.now) t)) }
{
    if terms > 0 {
        if let Some(longer) = joined(into[terms - 1], task) {
            into[terms - 1] = longer;
            return Some(terms);
        }
    }
    if terms == into.len() {
        return None;
    }
    into[terms] = Term::new(task.period, slack_of(task), task.work);
    Some(terms + 1)
}

/// The task joins the term, where it has its period and room and the sum of the works fits.
fn joined(term: Term, task: &Task) -> Option<Term>
    ensures { IfSome result (λ longer.
        (longer.period ≡ term.period) × (longer.slack ≡ term.slack)
        × (longer.work ≡ term.work + task.now.work)
        × (term.period ≡ task.now.period)
        × (term.slack ≡ task.now.period - (task.now.deadline - task.now.jitter))) }
{
    if !serves(&term, task) {
        return None;
    }
    term.with(task.work)
}

/// Whether a term has the period and the slack of a task.
pub(crate) fn serves(term: &Term, task: &Task) -> bool
    ensures { IsTrue result ↔ Serves term.now task.now }
{
    term.period == task.period && term.slack == slack_of(task)
}

/// What the room of a task leaves of its period.
fn slack_of(task: &Task) -> u64
    ensures exact { result ≡ task.now.period - (task.now.deadline - task.now.jitter) }
    ensures in_period { result < task.now.period }
{
    task.period - room_of(task)
}
