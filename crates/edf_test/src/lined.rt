ghost use Rattle.std.specs.Prelude.{◌≡◌, ◌^◌, ◌<◌, ◌≤◌, length, IfSome, MatchOption};
ghost use Rattle.std.specs.Option.{ForSome, ForNone};
ghost use Rattle.slot_model.specs.Task.{sporadic_tasks};
ghost use Rattle.edf_test.specs.Lines.{IsDemandLine};
ghost use Rattle.edf_test.specs.Rates.{asked_rate};
ghost use Rattle.edf_test.specs.inner.Settled.{IsSettledPast, given_rate, settled_point};

use crate::line::Line;
use crate::settled::{crossing, demand_line};
use edf_demand::DemandLevel;
use supply_bound::Supply;

/// A level under earliest deadline first, with the line above its demand bound: it is found once,
/// and met with the line of each supply. Only 2^32 tasks or more have none.
#[derive(Clone, Copy)]
pub struct LinedLevel<'a> {
    pub level: DemandLevel<'a>,
    line: Option<Line>,
    pub ghost is_line: { ForSome line (λ found. IsDemandLine level.tasks.now found) },
    pub ghost is_found: { ForNone line (2 ^ 32 ≤ length level.tasks.now) },
}

impl<'a> LinedLevel<'a> {
    /// Finds the line of the level.
    pub fn of(level: &DemandLevel<'a>) -> LinedLevel<'a>
        ensures { result.level ≡ level.now }
    {
        LinedLevel {
            level: *level,
            line: demand_line(level.tasks),
        }
    }
}

/// A window, in slots, past which no window asks for more slots than the supply gives at the least:
/// where the line above the demand bound meets the line below the supply's bound (the classic bound
/// of Baruah, Rosier and Howell, 1990, over a supply bound). None where the tasks' utilisation is
/// not surely below the rate of the supply. The level's line is not found again for each supply.
pub fn settled_by<S: Supply>(lined: &LinedLevel, s: &S) -> Option<u128>
    ensures settled { let T = sporadic_tasks lined.now.level.tasks.now in
        IfSome result (λ last. IsSettledPast T (S.bound s.now) last) }
    ensures exact { let T = sporadic_tasks lined.now.level.tasks.now in
        MatchOption result
        (length lined.now.level.tasks.now < 2 ^ 32 →
        given_rate (S.amount s.now) (S.cycle_of s.now) ≤ asked_rate T)
        (λ last. last ≡ settled_point T (S.bound s.now) (S.amount s.now) (S.cycle_of s.now)) }
{
    crossing(lined.line?, s)
}
