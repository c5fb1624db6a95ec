ghost use Rattle.std.specs.Prelude.{◌↔◌, ◌^◌, ◌<◌, length, IsTrue};
ghost use Rattle.slot_model.specs.Task.{sporadic_tasks};
ghost use Rattle.slot_model.specs.Bound.{sbf, TestPasses};
ghost use Rattle.least_budget.specs.Levels.{sched_of, tasks_of};

use least_budget::{Level, Tested};
use slot_model::Short;
use supply_bound::Periodic;

/// Whether the level passes over the supply. `last` is what was short of another supply, and mostly
/// is short of this one too; where something else is, it is that from now on.
pub fn passes(level: &Level, s: &Periodic, last: &mut Option<Short>) -> bool
    requires { length (tasks_of level.now) < 2 ^ 32 }
    ensures { let T = sporadic_tasks (tasks_of level.now) in
        let bound = sbf s.now.period s.now.budget in
        IsTrue result ↔ TestPasses (sched_of level.now) T bound s.now.period }
{
    if let Some(short) = *last {
        if level.is_short(s, short) {
            return false;
        }
    }
    match level.test(s) {
        Tested::Passes => true,
        Tested::Short(short) => {
            *last = Some(short);
            false
        }
        Tested::Wide => false,
    }
}
