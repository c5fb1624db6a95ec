ghost use Rattle.std.specs.Prelude.{◌≡◌, ℕ, ◌+◌, ◌<◌, ◌≤◌, ◌++◌, [], ◌∷◌, true, false, length, take, IfOk, IfErr, IfSome, IfNone};
ghost use Rattle.tree_model.specs.declared.system.TheConstants.{MAX_PARTS};
ghost use Rattle.tree_model.specs.declared.place.Place.{Place};
ghost use Rattle.tree_model.specs.System.{IsSystem, is_leaf_at};
ghost use Rattle.tree_model.specs.Tree.{server_tasks};
ghost use Rattle.tree_model.specs.Admission.{Admitted};
ghost use Rattle.compose_tree.specs.Kept.{IsKept};
ghost use Rattle.admission_session.specs.Leaves.{with_guest};
ghost use Rattle.admission_session.specs.inner.Undone.{moved_to};
ghost use Rattle.admission_session.specs.Edits.{IsNewLeaf};
ghost use Rattle.admission_session.specs.Answers.{HasRefusal, IsPutOn};
ghost use Rattle.admission_session.specs.inner.Shares.{shares};

use crate::copies::copy_on;
use crate::in_place::{move_to, pop_leaf, push_leaf};
use crate::plans::{one_budget_less, one_budget_more};
use crate::shares::{asked_of_cores, is_past_all, share_of};
use compose_tree::{resettle_part, retest_core};
use slot_model::Task;
use std::alloc::{AllocError, Global};
use tree_model::{Parent, Part, Plan, System};

/// Puts a copy of a guest behind all parts of a system that is admitted by its plan, on the first
/// core on which it is admitted then, and answers that core. Where there is none, the copy is taken
/// off again. `room` is for the tasks of one node, here and below.
pub fn try_cores(
    alloc: Global,
    sys: &mut System,
    plan: &mut Plan,
    guest: &Part,
    room: &mut [Task],
) -> Result<Option<u32>, AllocError>
    requires admitted { Admitted sys.old plan.old }
    requires new { IsNewLeaf sys.old guest.now }
    requires room { MAX_PARTS ≤ length room.old }
    ensures put { IfOk result (λ core. IsPutOn sys.old guest.now core sys.new) }
    ensures unchanged { IfErr result (λ _. sys.new ≡ sys.old) }
    ensures admitted { Admitted sys.new plan.new }
{
    let q = sys.parts().len() as u32;
    put_guest(alloc, sys, plan, guest)?;
    match first_core(sys, plan, q, room) {
        Some(c) => Ok(Some(c)),
        None => {
            one_budget_less(plan);
            let _leaf = pop_leaf(sys);
            Ok(None)
        }
    }
}

/// Puts a copy of a guest behind all parts, on the first core, with a budget of 1.
fn put_guest(
    alloc: Global,
    sys: &mut System,
    plan: &mut Plan,
    guest: &Part,
) -> Result<(), AllocError>
    requires { IsNewLeaf sys.old guest.now }
    ensures put { IfOk result (λ _. sys.new ≡ with_guest sys.old guest.now 0) }
    ensures more { IfOk result (λ _. plan.new ≡ plan.old ++ 1 ∷ []) }
    ensures unchanged { IfErr result (λ _. (sys.new ≡ sys.old) × (plan.new ≡ plan.old)) }
{
    // a system has a core
    let _cores = sys.cores();
    let leaf = copy_on(alloc, guest, Parent::Core(0))?;
    one_budget_more(plan)?;
    if push_leaf(sys, leaf).is_err() {
        one_budget_less(plan);
        return Err(AllocError);
    }
    Ok(())
}

/// Puts leaf `q`, the last part, on the first core on which the system is admitted. The plan
/// settles every node but the leaf and its core, on whichever it stands; the budget of the leaf is
/// written. Where there is no such core, the system is as before.
fn first_core(sys: &mut System, plan: &mut Plan, q: u32, room: &mut [Task]) -> Option<u32>
    requires some_core { 1 ≤ length sys.old.cores }
    requires last { length sys.old.parts ≡ q + 1 }
    requires leaf { is_leaf_at sys.old q ≡ true }
    requires on_first { moved_to sys.old q 0 ≡ sys.old }
    requires systems { (c : ℕ) → c < length sys.old.cores → IsSystem (moved_to sys.old q c) }
    requires kept { (c : ℕ) → c < length sys.old.cores →
        IsKept (moved_to sys.old q c) plan.old (Place.Part q) }
    requires room { MAX_PARTS ≤ length room.old }
    ensures is_core { IfSome result (λ c. c < length sys.old.cores) }
    ensures put { IfSome result (λ c. sys.new ≡ moved_to sys.old q c) }
    ensures admitted { IfSome result (λ _. Admitted sys.new plan.new) }
    ensures before { IfSome result (λ c. (d : ℕ) → d < c → HasRefusal (moved_to sys.old q d)) }
    ensures unchanged { IfNone result (sys.new ≡ sys.old) }
    ensures refused { IfNone result
        ((d : ℕ) → d < length sys.old.cores → HasRefusal (moved_to sys.old q d)) }
    ensures long { length plan.new ≡ length plan.old }
    ensures others { take q plan.new ≡ take q plan.old }
{
    match resettle_part(sys, &plan.budgets, q, room) {
        Err(_) => None,
        Ok(budget) => {
            plan.budgets[q as usize] = budget;
            seek_core(sys, &plan.budgets, q, room)
        }
    }
}

/// The same, where the budget of the leaf is settled too.
fn seek_core(sys: &mut System, budgets: &[u64], q: u32, room: &mut [Task]) -> Option<u32>
    requires some_core { 1 ≤ length sys.old.cores }
    requires last { length sys.old.parts ≡ q + 1 }
    requires on_first { moved_to sys.old q 0 ≡ sys.old }
    requires systems { (c : ℕ) → c < length sys.old.cores → IsSystem (moved_to sys.old q c) }
    requires kept { (c : ℕ) → c < length sys.old.cores →
        IsKept (moved_to sys.old q c) budgets.now (Place.Core c) }
    requires room { MAX_PARTS ≤ length room.old }
    ensures is_core { IfSome result (λ c. c < length sys.old.cores) }
    ensures put { IfSome result (λ c. sys.new ≡ moved_to sys.old q c) }
    ensures admitted { IfSome result (λ _. Admitted sys.new budgets.now) }
    ensures before { IfSome result (λ c. (d : ℕ) → d < c → HasRefusal (moved_to sys.old q d)) }
    ensures unchanged { IfNone result (sys.new ≡ sys.old) }
    ensures refused { IfNone result
        ((d : ℕ) → d < length sys.old.cores → HasRefusal (moved_to sys.old q d)) }
{
    let asked = asked_of_cores(sys, budgets, q as usize);
    let own = share_of(&sys.parts()[q as usize], budgets[q as usize]);
    for c in 0..sys.cores().len() as u32 {
        if fits_on(sys, budgets, q, c, asked[c as usize] + own, room) {
            return Some(c);
        }
    }
    move_to(sys, q as usize, 0);
    None
}

/// Whether core `c` passes with part `q`, which is put there then. The servers on the core ask for
/// these shares together; where they ask for more than all slots, it is not tested.
fn fits_on(sys: &mut System, budgets: &[u64], q: u32, c: u32, asked: u64, room: &mut [Task]) -> bool
    requires is_part { q < length sys.old.parts }
    requires system { IsSystem (moved_to sys.old q c) }
    requires kept { IsKept (moved_to sys.old q c) budgets.now (Place.Core c) }
    requires asked { asked
        ≡ shares (server_tasks (moved_to sys.old q c) budgets.now (Place.Core c)) }
    requires room { MAX_PARTS ≤ length room.old }
    ensures same { (d : ℕ) → moved_to sys.new q d ≡ moved_to sys.old q d }
    ensures moved { result ≡ true → sys.new ≡ moved_to sys.old q c }
    ensures fits { result ≡ true → Admitted sys.new budgets.now }
    ensures fits_not { result ≡ false → HasRefusal (moved_to sys.old q c) }
{
    if is_past_all(sys.cores()[c as usize].sched, asked) {
        return false;
    }
    move_to(sys, q as usize, c);
    retest_core(sys, budgets, c, room).is_ok()
}
