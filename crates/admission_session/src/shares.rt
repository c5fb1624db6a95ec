ghost use Rattle.std.specs.Prelude.{◌≡◌, ◌+◌, ◌*◌, ◌/◌, ◌^◌, ◌<◌, ◌≤◌, ◌↔◌, ℕ, IsTrue, length, slice_index_or};
ghost use Rattle.slot_model.specs.declared.task.TheConstants.{LIMIT};
ghost use Rattle.slot_model.specs.declared.sched.Sched.TheVariants.{Edf};
ghost use Rattle.tree_model.specs.declared.place.Place.{Place};
ghost use Rattle.tree_model.specs.Plans.{IsPlan};
ghost use Rattle.tree_model.specs.Tree.{child_tasks, server_task};
ghost use Rattle.admission_session.specs.inner.Shares.{share, shares};

use slot_model::Sched;
use tree_model::{MAX_CORES, Parent, Part, System};

/// All slots of a core, in the parts in which shares are counted.
const ALL_SLOTS: u64 = 1 << 32;

/// What the servers of the first `count` parts ask of each core, in parts of all its slots.
pub fn asked_of_cores(sys: &System, budgets: &[u64], count: usize) -> [u64; MAX_CORES]
    requires count { count ≤ length sys.now.parts }
    requires plan { IsPlan sys.now budgets.now }
    ensures room { length result ≡ MAX_CORES }
    ensures asked { (c : ℕ) → c < MAX_CORES → slice_index_or result c 0
        ≡ shares (child_tasks sys.now budgets.now (Place.Core c) count) }
    ensures few { (c : ℕ) → c < MAX_CORES → slice_index_or result c 0 ≤ count * 2 ^ 32 }
{
    let parts = sys.parts();
    let mut asked = [0; MAX_CORES];
    for q in 0..count {
        let part = &parts[q];
        match part.parent() {
            Parent::Core(c) => asked[c as usize] += share_of(part, budgets[q]),
            Parent::Part(_) => {}
        }
    }
    asked
}

/// What the server of a part asks for with this budget, in parts of all slots, rounded down.
pub fn share_of(part: &Part, budget: u64) -> u64
    requires some { 1 ≤ part.now.period }
    requires in_limit { part.now.period ≤ LIMIT }
    requires in_period { budget ≤ part.now.period }
    ensures share { result ≡ budget * 2 ^ 32 / part.now.period }
    ensures at_most { result ≤ 2 ^ 32 }
{
    budget * ALL_SLOTS / part.period()
}

/// Whether servers under this scheduler ask for more than all slots, by their shares, which are
/// rounded down.
pub fn is_past_all(sched: Sched, asked: u64) -> bool
    ensures { IsTrue result ↔ ((sched ≡ Edf) × (2 ^ 32 < asked)) }
{
    sched == Sched::Edf && ALL_SLOTS < asked
}
