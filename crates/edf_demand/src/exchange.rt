ghost use Rattle.std.specs.Prelude.{◌≡◌, ◌⊎◌, ◌+◌, ◌^◌, ◌<◌, ◌≤◌, All, length, min, MatchOption, slice_index_or, slice_set};
ghost use Rattle.edf_demand.specs.Terms.{IsGathered};
ghost use Rattle.edf_demand.specs.inner.Exchanged.{CanExchange, IsExchanged};

use crate::terms::{Gathered, gather, serves};
use slot_model::Task;
use window_terms::Term;

/// Puts another task in place `i`. Where a term serves both tasks it asks for as much more or less,
/// and else all terms are gathered anew: of no fewer tasks than there are places, where they were
/// so before.
pub fn set_gathered(
    tasks: &mut [Task],
    terms: &mut [Term],
    gathered: Gathered,
    i: usize,
    task: Task,
) -> Gathered
    requires stand { IsGathered gathered terms.old tasks.old }
    requires i_named { i < length tasks.old }
    ensures set { tasks.new ≡ slice_set tasks.old i task }
    ensures long { length terms.new ≡ length terms.old }
    ensures stand { IsGathered result terms.new tasks.new }
    ensures room { let room = min (length terms.old) (length tasks.old) in
        room ≤ gathered.tasks → room ≤ result.tasks }
{
    let before = tasks[i];
    tasks[i] = task;
    if i >= gathered.tasks {
        return gathered;
    }
    let Some((place, term)) = exchanged_among(&terms[..gathered.terms], &before, &task) else {
        return gather(tasks, terms);
    };
    terms[place] = term;
    gathered
}

/// The first term that serves both tasks, with the second in place of the first, and where it is.
/// None exactly where there is none whose work fits.
fn exchanged_among(terms: &[Term], before: &Task, task: &Task) -> Option<(usize, Term)>
    ensures { MatchOption result
        (All (λ term. CanExchange term before.now task.now → ⊥) terms.now)
        (λ found. (found.0 < length terms.now)
        × IsExchanged (slice_index_or terms.now found.0 found.1) found.1 before.now task.now) }
{
    for (place, term) in terms.iter().enumerate() {
        if let Some(other) = exchanged(term, before, task) {
            return Some((place, other));
        }
    }
    None
}

/// The term with the second task in place of the first. None exactly where it does not serve both,
/// or 64 bits don't hold its work.
fn exchanged(term: &Term, before: &Task, task: &Task) -> Option<Term>
    ensures { MatchOption result (CanExchange term.now before.now task.now → ⊥)
        (λ other. IsExchanged term.now other before.now task.now) }
{
    if !serves(term, before) || !serves(term, task) {
        return None;
    }
    Some(Term {
        period: term.period,
        slack: term.slack,
        work: exchanged_work(term.work, before.work, task.work)?,
        reciprocal: term.reciprocal,
    })
}

/// The work less one part and with another.
fn exchanged_work(work: u64, less: u64, more: u64) -> Option<u64>
    ensures { MatchOption result ((work + more < less) ⊎ (less + 2 ^ 64 ≤ work + more))
        (λ other. other + less ≡ work + more) }
{
    if more >= less {
        work.checked_add(more - less)
    } else {
        work.checked_sub(less - more)
    }
}
