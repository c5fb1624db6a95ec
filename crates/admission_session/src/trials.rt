ghost use Rattle.std.specs.Prelude.{◌≡◌, ◌<◌, ◌≤◌, ◌≢◌, true, length, IfOk, IfErr};
ghost use Rattle.tree_model.specs.declared.system.TheConstants.{MAX_PARTS};
ghost use Rattle.tree_model.specs.System.{IsSystem, is_leaf_at, part_at};
ghost use Rattle.tree_model.specs.Admission.{Admitted, FirstRefusal};
ghost use Rattle.admission_session.specs.Leaves.{with_changed, with_leaf, without_leaf};

use crate::copies::fallen;
use crate::in_place::{pop_leaf, push_leaf, put_back, replace_leaf, take_leaf};
use crate::plans::{less_budget, one_budget_less, one_budget_more};
use compose_tree::recompose;
use slot_model::Task;
use std::alloc::Global;
use std::mem;
use tree_model::{Part, Place, Plan, Refusal, System};

/// Puts a leaf behind all parts of a system that is admitted by its plan. Where the system is not
/// admitted with it, it is taken off again and handed back with the first refusal. `room` is for
/// the tasks of one node, here and below.
pub fn try_leaf(
    sys: &mut System,
    plan: &mut Plan,
    leaf: Part,
    room: &mut [Task],
) -> Result<(), (Part, Refusal)>
    requires admitted { Admitted sys.old plan.old }
    requires system { IsSystem (with_leaf sys.old leaf) }
    requires room { MAX_PARTS ≤ length room.old }
    ensures put { IfOk result (λ _. sys.new ≡ with_leaf sys.old leaf) }
    ensures admitted { IfOk result (λ _. Admitted sys.new plan.new) }
    ensures back { IfErr result (λ back. back.0 ≡ leaf) }
    ensures unchanged { IfErr result (λ _. (sys.new ≡ sys.old) × (plan.new ≡ plan.old)) }
    ensures refusal { IfErr result (λ back.
        back.1 ≢ Refusal.NoMemory → FirstRefusal (with_leaf sys.old leaf) back.1) }
{
    let start = Place::Part(sys.parts().len() as u32);
    if one_budget_more(plan).is_err() {
        return Err((leaf, Refusal::NoMemory));
    }
    if let Err(leaf) = push_leaf(sys, leaf) {
        one_budget_less(plan);
        return Err((leaf, Refusal::NoMemory));
    }
    if let Err(refusal) = recompose(sys, plan, start, room) {
        one_budget_less(plan);
        return Err((pop_leaf(sys), refusal));
    }
    Ok(())
}

/// Puts another leaf in the place of part `q` of a system that is admitted by its plan. Where the
/// system is not admitted with it, the part that stood there is put back, and the leaf handed back
/// with the first refusal.
pub fn try_change(
    sys: &mut System,
    plan: &mut Plan,
    q: usize,
    leaf: Part,
    room: &mut [Task],
) -> Result<(), (Part, Refusal)>
    requires admitted { Admitted sys.old plan.old }
    requires is_part { q < length sys.old.parts }
    requires parent { leaf.parent ≡ (part_at sys.old q).parent }
    requires system { IsSystem (with_changed sys.old q leaf) }
    requires room { MAX_PARTS ≤ length room.old }
    ensures put { IfOk result (λ _. sys.new ≡ with_changed sys.old q leaf) }
    ensures admitted { IfOk result (λ _. Admitted sys.new plan.new) }
    ensures back { IfErr result (λ back. back.0 ≡ leaf) }
    ensures unchanged { IfErr result (λ _. (sys.new ≡ sys.old) × (plan.new ≡ plan.old)) }
    ensures refusal { IfErr result (λ back. FirstRefusal (with_changed sys.old q leaf) back.1) }
{
    let was = replace_leaf(sys, q, leaf);
    match recompose(sys, plan, Place::Part(q as u32), room) {
        Ok(()) => Ok(()),
        Err(refusal) => Err((replace_leaf(sys, q, was), refusal)),
    }
}

/// Takes leaf `q` out of a system that is admitted by its plan. Where the system is not admitted
/// without it, it is put back, and the first refusal answered.
pub fn try_removal(
    alloc: Global,
    sys: &mut System,
    plan: &mut Plan,
    q: usize,
    room: &mut [Task],
) -> Result<(), Refusal>
    requires admitted { Admitted sys.old plan.old }
    requires is_part { q < length sys.old.parts }
    requires leaf { is_leaf_at sys.old q ≡ true }
    requires system { IsSystem (without_leaf sys.old q) }
    requires room { MAX_PARTS ≤ length room.old }
    ensures taken { IfOk result (λ _. sys.new ≡ without_leaf sys.old q) }
    ensures admitted { IfOk result (λ _. Admitted sys.new plan.new) }
    ensures unchanged { IfErr result (λ _. (sys.new ≡ sys.old) × (plan.new ≡ plan.old)) }
    ensures refusal { IfErr result (λ r.
        r ≢ Refusal.NoMemory → FirstRefusal (without_leaf sys.old q) r) }
{
    let parts = sys.parts();
    let start = fallen(parts[q].parent(), q).place();
    let Ok(spare) = Vec::with_capacity(alloc, parts.len()) else {
        return Err(Refusal::NoMemory);
    };
    let Ok(fewer) = less_budget(alloc, plan, q) else {
        return Err(Refusal::NoMemory);
    };
    let was = mem::replace(plan, fewer);
    let leaf = take_leaf(sys, q);
    match recompose(sys, plan, start, room) {
        Ok(()) => Ok(()),
        Err(refusal) => {
            *plan = was;
            put_back(sys, q, leaf, spare);
            Err(refusal)
        }
    }
}
