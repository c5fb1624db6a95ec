ghost use Rattle.std.specs.Prelude.{ℕ, ◌-◌, ◌^◌, ◌<◌, ◌≤◌, IfOk, MatchOption};
ghost use Rattle.slot_model.specs.Task.{sporadic_tasks};
ghost use Rattle.slot_model.specs.Bound.{dbf};
ghost use Rattle.slot_model.specs.Points.{IsCover, IsBackward, CoversShow};

use crate::back::given_by;
use edf_demand::DemandLevel;
use slot_model::Task;
use std::alloc::{AllocError, Global};
use supply_bound::Supply;
use window_terms::{KEPT, Term};

/// The points of the walk backwards from `h + 1`, in slots and ascending: they show that no window
/// of 1 to `h` slots asks for more slots than the supply gives at the least. None exactly where one
/// does. Fails where memory runs out.
pub fn cover<S: Supply>(
    alloc: Global,
    tasks: &[Task],
    s: &S,
    h: u128,
) -> Result<Option<Vec<u128>>, AllocError>
    requires { h ≤ 2 ^ 128 - 2 }
    ensures exact { let T = sporadic_tasks tasks.now in
        IfOk result (λ answer. MatchOption answer
        ((t : ℕ) × (1 ≤ t) × (t ≤ h) × (S.bound s.now t < dbf T t))
        (λ points. IsCover T (S.bound s.now) h points.items
        × IsBackward T (S.bound s.now) h points.items)) }
    ensures shows { CoversShow (sporadic_tasks tasks.now) (S.bound s.now) h }
{
    let mut room = [Term::none(); KEPT];
    cover_of(alloc, &DemandLevel::gather(tasks, &mut room), s, h)
}

/// The same of a level whose terms were gathered.
pub fn cover_of<S: Supply>(
    alloc: Global,
    level: &DemandLevel,
    s: &S,
    h: u128,
) -> Result<Option<Vec<u128>>, AllocError>
    requires { h ≤ 2 ^ 128 - 2 }
    ensures exact { let T = sporadic_tasks level.now.tasks.now in
        IfOk result (λ answer. MatchOption answer
        ((t : ℕ) × (1 ≤ t) × (t ≤ h) × (S.bound s.now t < dbf T t))
        (λ points. IsCover T (S.bound s.now) h points.items
        × IsBackward T (S.bound s.now) h points.items)) }
    ensures shows { CoversShow (sporadic_tasks level.now.tasks.now) (S.bound s.now) h }
{
    let mut point = h + 1;
    let mut points = Vec::from_slice(alloc, &[point])?;
    loop {
        let Some(given) = given_by(level, s, point - 1) else {
            return Ok(None);
        };
        if given == 0 {
            break;
        }
        points.push(given)?;
        point = given;
    }
    points.reverse();
    Ok(Some(points))
}
