ghost use Rattle.std.specs.Prelude.{◌≡◌, ◌↔◌, ◌-◌, ◌*◌, ◌/◌, ◌^◌, ◌%◌, ◌≤◌, IsTrue, MatchOption, All};
ghost use Rattle.slot_model.specs.Task.{sporadic_task, sporadic_tasks};
ghost use Rattle.slot_model.specs.Bound.{IsCommonMultiple};
ghost use Rattle.edf_test.specs.inner.Settled.{IsSettledPast};
ghost use Rattle.edf_test.specs.inner.Rates.{task_ahead, ahead_over, behind_over, NeverMeets};

use crate::amount::amount_of;
use edf_demand::demand;
use slot_model::Task;
use supply_bound::Supply;
use window_terms::room_of;

/// Whether what the tasks ask for and what the supply gives over `m` slots tell that the demand
/// never catches up with the supply's bound: an exact test for rates that are equal, too.
pub fn never_meets<S: Supply>(tasks: &[Task], s: &S, m: u128) -> bool
    requires { 1 ≤ m }
    ensures exact { let T = sporadic_tasks tasks.now in
        IsTrue result ↔ NeverMeets T (S.bound s.now) (S.amount s.now) (S.cycle_of s.now) m }
    ensures settled { let T = sporadic_tasks tasks.now in
        IsTrue result → IsSettledPast T (S.bound s.now) (S.cycle_of s.now) }
{
    let cycle = s.cycle() as u128;
    if !is_common_multiple(tasks, s.cycle(), m) {
        return false;
    }
    let Some(asked) = demand(tasks, m) else {
        return false;
    };
    let Some(ahead) = ahead_of_rate(tasks, m) else {
        return false;
    };
    let cycles = m / cycle;
    if asked > cycles * amount_of(s) {
        return false;
    }
    let behind = behind_rate(s);
    behind < cycle && ahead < m - cycles * behind
}

/// Whether `m` is a multiple of the cycle and of all periods.
fn is_common_multiple(tasks: &[Task], cycle: u64, m: u128) -> bool
    requires some_cycle { 1 ≤ cycle }
    requires some_slots { 1 ≤ m }
    ensures { IsTrue result ↔ IsCommonMultiple (sporadic_tasks tasks.now) cycle m }
{
    m % cycle as u128 == 0 && is_multiple(tasks, m)
}

fn is_multiple(tasks: &[Task], m: u128) -> bool
    ensures { IsTrue result ↔ All (λ task. m % task.period ≡ 0) tasks.now }
{
    tasks.iter().all(|task| m % task.period as u128 == 0)
}

/// How far the demand bound may be ahead of the tasks' rate, in parts of 1/m of a slot. None where
/// that passes 128 bits.
fn ahead_of_rate(tasks: &[Task], m: u128) -> Option<u128>
    ensures { let ahead = ahead_over (sporadic_tasks tasks.now) m in
        MatchOption result (2 ^ 128 ≤ ahead) (λ a. a ≡ ahead) }
{
    let mut ahead: u128 = 0;
    for task in tasks {
        ahead = ahead.checked_add(ahead_of_task(task, m)?)?;
    }
    Some(ahead)
}

/// The same of one task: its work, for the part of the period past its deadline less its jitter.
fn ahead_of_task(task: &Task, m: u128) -> Option<u128>
    ensures { let ahead = task_ahead m (sporadic_task task.now) in
        MatchOption result (2 ^ 128 ≤ ahead) (λ a. a ≡ ahead) }
{
    let work = m / task.period as u128 * task.work as u128;
    let early = task.period - room_of(task);
    work.checked_mul(early as u128)
}

/// How far the supply's bound may fall behind its rate, in parts of 1/cycle of a slot.
fn behind_rate<S: Supply>(s: &S) -> u128
    ensures { result ≡ behind_over (S.bound s.now) (S.amount s.now) (S.cycle_of s.now) }
{
    let cycle = s.cycle() as u128;
    let amount = amount_of(s);
    (amount * (2 * cycle - amount)).saturating_sub(s.least(cycle) * cycle)
}
