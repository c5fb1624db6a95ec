ghost use Rattle.std.specs.Prelude.{◌≡◌, ℕ, ◌+◌, ◌-◌, ◌*◌, ◌/◌, ◌^◌, ◌<◌, ◌≤◌, max, length, IfSome, MatchOption};
ghost use Rattle.slot_model.specs.Task.{sporadic_task};
ghost use Rattle.edf_test.specs.Lines.{IsDemandLine};
ghost use Rattle.edf_test.specs.Rates.{rate_up};
ghost use Rattle.edf_test.specs.inner.Settled.{given_rate, given_behind};

use crate::amount::amount_of;
use crate::line::Line;
use slot_model::Task;
use supply_bound::Supply;
use window_terms::room_of;

/// One slot, in the unit of `Line`.
const ONE: u128 = 1 << 60;

/// Where this line meets the line below the supply's bound: what is at most the line is no more
/// than the bound from there on.
pub fn crossing<S: Supply>(asked: Line, s: &S) -> Option<u128>
    ensures past { IfSome result (λ last. (x t : ℕ) → last < t →
        x * 2 ^ 60 ≤ asked.slope * t + asked.offset → x ≤ S.bound s.now t) }
    ensures exact { let rate = given_rate (S.amount s.now) (S.cycle_of s.now) in
        let behind = given_behind (S.bound s.now) (S.amount s.now) (S.cycle_of s.now) in
        MatchOption result
        (asked.offset ≤ 2 ^ 122 → rate ≤ asked.slope)
        (λ last. last
        ≡ max (S.cycle_of s.now) ((asked.offset + behind) / (rate - asked.slope))) }
{
    let given = supply_line(s);
    if given.slope <= asked.slope {
        return None;
    }
    let apart = asked.offset.checked_add(given.offset)?;
    let last = apart / (given.slope - asked.slope);
    let cycle = s.cycle() as u128;
    Some(if last < cycle { cycle } else { last })
}

/// The line that the demand bound never passes: each task asks for its work once a period.
pub fn demand_line(tasks: &[Task]) -> Option<Line>
    ensures { MatchOption result (2 ^ 32 ≤ length tasks.now)
        (λ line. IsDemandLine tasks.now line) }
{
    let mut slope: u128 = 0;
    let mut offset: u128 = 0;
    for task in tasks {
        let rate = rate_of(task);
        let room = room_of(task);
        slope = slope.checked_add(rate)?;
        offset = offset.checked_add(rate * (task.period - room) as u128)?;
    }
    Some(Line { slope, offset })
}

/// The task's work over its period, rounded up.
fn rate_of(task: &Task) -> u128
    ensures exact { result ≡ rate_up (sporadic_task task.now) }
    ensures at_most_one { result ≤ 2 ^ 60 }
{
    let period = task.period as u128;
    (task.work as u128 * ONE + (period - 1)) / period
}

/// A line that the supply's bound never falls below past the first cycle: each cycle gives the same
/// amount, which comes in as few slots as can be at its end.
fn supply_line<S: Supply>(s: &S) -> Line
    ensures below { (t : ℕ) → S.cycle_of s.now ≤ t →
        result.slope * t ≤ S.bound s.now t * 2 ^ 60 + result.offset }
    ensures slope { result.slope ≡ given_rate (S.amount s.now) (S.cycle_of s.now) }
    ensures offset { let far = given_behind (S.bound s.now) (S.amount s.now) (S.cycle_of s.now) in
        result.offset ≡ far }
    ensures small { result.offset ≤ 2 ^ 125 }
{
    let cycle = s.cycle() as u128;
    let amount = amount_of(s);
    let slope = amount * ONE / cycle;
    let two_cycles = 2 * cycle;
    let latest = slope * (two_cycles - amount);
    Line {
        slope,
        offset: latest.saturating_sub(s.least(cycle) * ONE),
    }
}
