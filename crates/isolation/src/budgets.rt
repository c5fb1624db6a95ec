ghost use Rattle.std.specs.Prelude.{◌≡◌, ◌<◌, length, slice_index_or, IfOk};
ghost use Rattle.tree_model.specs.Plans.{IsPlan};
ghost use Rattle.isolation.specs.Budgets.{AreCoreBudgets, IsCoreBudgets};
ghost use Rattle.isolation.specs.inner.Neighbours.{AreNeighbours};

use crate::neighbours::Neighbours;
use std::alloc::{AllocError, Global};
use tree_model::{MAX_PARTS, Plan, System};

/// The sum of the budgets of the parts on the core at a place, and their shortest period.
#[derive(Clone, Copy, Debug, PartialEq, Eq)]
pub struct CoreBudgets {
    pub core: u32,
    pub budgets: u64,
    pub shortest: u64,
}

/// Those of each core with a part on it, in file order.
pub fn core_budgets(
    alloc: Global,
    sys: &System,
    plan: &Plan,
) -> Result<Vec<CoreBudgets>, AllocError>
    requires { IsPlan sys.now plan.now }
    ensures { IfOk result (λ rows. AreCoreBudgets sys.now plan.now rows.items) }
{
    let neighbours = Neighbours::new(sys);
    let mut rows = Vec::new(alloc);
    for core in 0..sys.cores().len() {
        if neighbours.first[core] < sys.parts().len() {
            rows.push(budgets_of(sys, plan, &neighbours, core as u32))?;
        }
    }
    Ok(rows)
}

/// Those of a core with a part on it.
fn budgets_of(sys: &System, plan: &Plan, neighbours: &Neighbours, core: u32) -> CoreBudgets
    requires plan { IsPlan sys.now plan.now }
    requires neighbours { AreNeighbours sys.now neighbours.now }
    requires is_core { core < length sys.now.cores }
    requires has_part { slice_index_or neighbours.now.first core 0 < length sys.now.parts }
    ensures of_core { result.core ≡ core }
    ensures is { IsCoreBudgets sys.now plan.now result }
{
    prove!(sys.parts().len() <= MAX_PARTS);
    let first = neighbours.first[core as usize];
    let mut budgets: u64 = 0;
    let mut shortest = sys.parts()[first].period();
    let mut u = first;
    while u < sys.parts().len() {
        budgets += plan.budgets()[u];
        shortest = shortest.min(sys.parts()[u].period());
        u = neighbours.next[u];
    }
    CoreBudgets {
        core,
        budgets,
        shortest,
    }
}
