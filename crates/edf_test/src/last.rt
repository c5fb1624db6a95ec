ghost use Rattle.std.specs.Prelude.{◌≤◌};
ghost use Rattle.slot_model.specs.Task.{sporadic_tasks};
ghost use Rattle.edf_test.specs.Back.{FitsPast};

use crate::equal::never_meets;
use crate::lined::{LinedLevel, settled_by};
use supply_bound::Supply;

/// Up to which window the windows of 1 to `h` slots are to be tested. Where the tasks' rate is
/// below the supply's, that is the window past which the demand fits. Where the rates are equal to
/// the last bit and `h` is the horizon, a cycle is enough if the demand never meets the supply;
/// otherwise that is `h` itself.
pub fn last_to_test<S: Supply>(lined: &LinedLevel, s: &S, h: u128) -> u128
    ensures within { result ≤ h }
    ensures settled { FitsPast (sporadic_tasks lined.now.level.tasks.now) (S.bound s.now) result h }
{
    if let Some(last) = settled_by(lined, s) {
        return last.min(h);
    }
    let cycle = s.cycle() as u128;
    if cycle < h && never_meets(lined.level.tasks, s, h - cycle) {
        return cycle;
    }
    h
}
