ghost use Rattle.std.specs.Prelude.{◌≡◌, ◌≢◌, ℕ, ◌<◌, ◌≤◌, List, length, slice_set, IfOk, IfErr, MatchResult};
ghost use Rattle.tree_model.specs.declared.system.TheConstants.{MAX_PARTS};
ghost use Rattle.tree_model.specs.System.{IsSystem};
ghost use Rattle.tree_model.specs.Admission.{Admitted, FirstRefusal};
ghost use Rattle.compose_tree.specs.Steps.{RefusesAt};
ghost use Rattle.compose_tree.specs.Kept.{under, IsKept, IsSettledNode};

use crate::budgets::{settle_part, test_core};
use crate::nodes::Asked;
use slot_model::Task;
use std::mem;
use tree_model::{MAX_PARTS, Place, Plan, Refusal, System};

/// What `compose` answers of a system that was edited at one node after it was admitted. `plan` is
/// the one that it had; its budgets settle every node but `start` and those above it, which alone
/// are tested. Where the system is refused, the plan is as before. `room` is for the tasks of one
/// node.
pub fn recompose(
    sys: &System,
    plan: &mut Plan,
    start: Place,
    room: &mut [Task],
) -> Result<(), Refusal>
    requires kept { IsKept sys.now plan.old start }
    requires room { MAX_PARTS ≤ length room.old }
    ensures plan { IfOk result (λ _. Admitted sys.now plan.new) }
    ensures refusal { IfErr result (λ r. FirstRefusal sys.now r) }
    ensures unchanged { IfErr result (λ _. plan.new ≡ plan.old) }
    // where budgets admit the system, they are the plan
    ensures complete { (budgets : List ℕ) → Admitted sys.now budgets →
        MatchResult result (λ _. plan.new ≡ budgets) (λ _. ⊥) }
{
    settle_up(sys, &mut plan.budgets, start, room)
}

/// Writes the budgets of the parts from `start` up, and tests the core on which they stand. Where
/// one of these nodes refuses, the budgets are put back.
fn settle_up(
    sys: &System,
    budgets: &mut [u64],
    start: Place,
    room: &mut [Task],
) -> Result<(), Refusal>
    requires kept { IsKept sys.now budgets.old start }
    requires room { MAX_PARTS ≤ length room.old }
    ensures system { IsSystem sys.now }
    ensures admitted { IfOk result (λ _. Admitted sys.now budgets.new) }
    ensures refusal { IfErr result (λ r. FirstRefusal sys.now r) }
    ensures unchanged { IfErr result (λ _. budgets.new ≡ budgets.old) }
{
    let parts = sys.parts();
    match start {
        Place::Core(c) => retest_core(sys, budgets, c, room),
        Place::Part(q) => {
            let budget = resettle_part(sys, budgets, q, room)?;
            let was = mem::replace(&mut budgets[q as usize], budget);
            let next = parts[q as usize].parent().place();
            if let Err(refusal) = settle_up(sys, budgets, next, room) {
                budgets[q as usize] = was;
                return Err(refusal);
            }
            Ok(())
        }
    }
}

/// The budget of part `q`, where these budgets settle every node but the part and that on which it
/// stands. With it they settle every node but the latter and the one on which that stands.
pub fn resettle_part(
    sys: &System,
    budgets: &[u64],
    q: u32,
    room: &mut [Task],
) -> Result<u64, Refusal>
    requires kept { IsKept sys.now budgets.now (Place.Part q) }
    requires room { MAX_PARTS ≤ length room.old }
    ensures settled { let node = Place.Part q in
        IfOk result (λ b. IsSettledNode sys.now (slice_set budgets.now q b) node) }
    ensures kept { IfOk result (λ b. IsKept sys.now (slice_set budgets.now q b) (under sys.now q)) }
    ensures refuses { IfErr result (λ r. RefusesAt sys.now budgets.now (Place.Part q) r) }
    ensures refusal { IfErr result (λ r. FirstRefusal sys.now r) }
{
    // the parts of a system keep its rules
    let _parts = sys.parts();
    match settle_part(sys, budgets, q, room, Asked::Least) {
        Ok(settled) => Ok(settled.budget),
        Err(refusal) => Err(refusal),
    }
}

/// Tests core `c`, where these budgets settle every other node.
pub fn retest_core(sys: &System, budgets: &[u64], c: u32, room: &mut [Task]) -> Result<(), Refusal>
    requires kept { IsKept sys.now budgets.now (Place.Core c) }
    requires room { MAX_PARTS ≤ length room.old }
    ensures admitted { IfOk result (λ _. Admitted sys.now budgets.now) }
    ensures refusal { IfErr result (λ r. FirstRefusal sys.now r) }
{
    // the parts of a system keep its rules
    let _parts = sys.parts();
    test_core(sys, budgets, c, room)
}
