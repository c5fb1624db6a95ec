ghost use Rattle.std.specs.Prelude.{◌↔◌, ◌^◌, ◌<◌, ◌≤◌, length, IsTrue};
ghost use Rattle.slot_model.specs.Task.{sporadic_tasks};
ghost use Rattle.slot_model.specs.Order.{before_of};
ghost use Rattle.least_budget.specs.Answers.{IsTested, IsShort, Foretells};

use crate::Tested;
use crate::gathered_level::Level;
use crate::lowest::{has_hit, has_hit_within, hit_of_lowest};
use edf_demand::horizon;
use edf_test::{LinedLevel, first_short_by, is_short};
use fp_request::RankedLevel;
use slot_model::{Sched, Short, Task};
use supply_bound::Supply;
use window_terms::{FEW, KEPT, Term};

/// Whether the tasks pass over the supply, and if not, what is short first: the least window under
/// earliest deadline first, the first task of the list under a fixed rank.
pub fn test<S: Supply>(sched: Sched, tasks: &[Task], s: &S) -> Tested
    requires { length tasks.now < 2 ^ 32 }
    ensures exact { IsTested sched (sporadic_tasks tasks.now) (S.bound s.now)
        (S.cycle_of s.now) result }
    ensures foretells { let T = sporadic_tasks tasks.now in
        Foretells (S.conforms s.now) (before_of sched T) T result }
{
    if tasks.len() <= FEW {
        test_in::<FEW, S>(sched, tasks, s)
    } else {
        test_in::<KEPT, S>(sched, tasks, s)
    }
}

/// The same in room for so many terms. It stands apart, since a function pays at its entry for all
/// the room that it may need.
#[inline(never)]
fn test_in<const ROOM: usize, S: Supply>(sched: Sched, tasks: &[Task], s: &S) -> Tested
    requires few { length tasks.now < 2 ^ 32 }
    requires room { ROOM ≤ 512 }
    ensures exact { IsTested sched (sporadic_tasks tasks.now) (S.bound s.now)
        (S.cycle_of s.now) result }
    ensures foretells { let T = sporadic_tasks tasks.now in
        Foretells (S.conforms s.now) (before_of sched T) T result }
{
    let mut room = [Term::none(); ROOM];
    let level = Level::gather(sched, tasks, &mut room);
    level.test(s)
}

/// The test of a level under earliest deadline first.
pub fn test_by_windows<S: Supply>(lined: &LinedLevel, s: &S) -> Tested
    ensures { let T = sporadic_tasks lined.now.level.tasks.now in
        IsTested Sched.Edf T (S.bound s.now) (S.cycle_of s.now) result }
{
    let Some(h) = horizon(lined.level.tasks, s.cycle()) else {
        return Tested::Wide;
    };
    match first_short_by(lined, s, h) {
        Some(t) => Tested::Short(Short::At(t)),
        None => Tested::Passes,
    }
}

/// The test of a level under a fixed rank, which needs no horizon.
pub fn test_by_rank<S: Supply>(level: &RankedLevel, s: &S) -> Tested
    requires { length level.now.tasks.now < 2 ^ 32 }
    ensures { let T = sporadic_tasks level.now.tasks.now in
        IsTested level.now.sched T (S.bound s.now) (S.cycle_of s.now) result }
{
    let common = hit_of_lowest(level, s);
    for i in 0..level.tasks.len() as u32 {
        if !has_hit_within(level, i, s, common) {
            return Tested::Short(Short::Task(i));
        }
    }
    Tested::Passes
}

/// Whether a window is short under earliest deadline first.
pub fn is_short_window<S: Supply>(lined: &LinedLevel, s: &S, short: Short) -> bool
    ensures { let T = sporadic_tasks lined.now.level.tasks.now in
        IsTrue result ↔ IsShort Sched.Edf T (S.bound s.now) short }
{
    match short {
        Short::At(t) => is_short(&lined.level, s, t),
        Short::Task(_) => false,
    }
}

/// Whether a task has no hit under a fixed rank.
pub fn is_short_task<S: Supply>(level: &RankedLevel, s: &S, short: Short) -> bool
    ensures { let T = sporadic_tasks level.now.tasks.now in
        IsTrue result ↔ IsShort level.now.sched T (S.bound s.now) short }
{
    match short {
        Short::Task(i) if (i as usize) < level.tasks.len() => !has_hit(&level.task(i), s),
        _ => false,
    }
}
