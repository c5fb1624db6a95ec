ghost use Rattle.std.specs.Prelude.{◌≡◌, ◌≢◌, ℕ, suc, ◌<◌, ◌≤◌, List, length, slice_set, IfOk, IfErr, MatchResult};
ghost use Rattle.tree_model.specs.declared.system.TheConstants.{MAX_PARTS};
ghost use Rattle.tree_model.specs.Admission.{AssignedFrom, Assigned, Admitted, FirstUnassigned};
ghost use Rattle.tree_model.specs.Plans.{IsPlan};

use crate::budgets::rooms;
use crate::nodes::untested_budget;
use slot_model::Task;
use std::alloc::Global;
use tree_model::{Place, Plan, Refusal, System, write_tasks};

/// The budgets of all parts, in slots: the given ones, untested, and the least ones that pass.
/// Parts are visited as `compose` does, and no core is tested; the first part that has no given
/// budget and no budget that passes refuses.
pub fn assign(alloc: Global, sys: &System) -> Result<Plan, Refusal>
    ensures plan { IfOk result (λ plan. Assigned sys.now plan) }
    ensures refusal { IfErr result (λ r. r ≢ Refusal.NoMemory → FirstUnassigned sys.now r) }
    // where budgets are assigned to the system, they are the plan
    ensures complete { (budgets : List ℕ) → Assigned sys.now budgets →
        MatchResult result (λ plan. plan ≡ budgets) (λ r. r ≡ Refusal.NoMemory) }
    ensures in_period { IfOk result (λ plan. IsPlan sys.now plan) }
    // so a plan of `compose`
    ensures as_composed { (budgets : List ℕ) → Admitted sys.now budgets →
        MatchResult result (λ plan. plan ≡ budgets) (λ r. r ≡ Refusal.NoMemory) }
{
    let (mut budgets, mut room) = rooms(alloc, sys)?;
    assign_parts(sys, &mut budgets, &mut room)?;
    Ok(Plan { budgets })
}

/// Writes the budgets of all parts, from the last to the first, and tests none that is given.
fn assign_parts(sys: &System, budgets: &mut [u64], room: &mut [Task]) -> Result<(), Refusal>
    requires one_each { length budgets.old ≡ length sys.now.parts }
    requires room { MAX_PARTS ≤ length room.old }
    ensures assigned { IfOk result (λ _. Assigned sys.now budgets.new) }
    ensures refusal { IfErr result (λ r. FirstUnassigned sys.now r) }
{
    for q in (0..sys.parts().len() as u32).rev() {
        budgets[q as usize] = assign_part(sys, budgets, q, room)?;
    }
    Ok(())
}

/// The budget of part `q`, after those of all later parts, untested where it is given.
fn assign_part(sys: &System, budgets: &[u64], q: u32, room: &mut [Task]) -> Result<u64, Refusal>
    requires is_part { q < length sys.now.parts }
    requires assigned { AssignedFrom sys.now budgets.now (suc q) }
    requires room { MAX_PARTS ≤ length room.old }
    ensures assigned { IfOk result (λ b. AssignedFrom sys.now (slice_set budgets.now q b) q) }
    ensures refusal { IfErr result (λ r. FirstUnassigned sys.now r) }
{
    let part = &sys.parts()[q as usize];
    let node = Place::Part(q);
    let count = write_tasks(sys, budgets, node, room);
    untested_budget(part, node, &room[..count])
}
