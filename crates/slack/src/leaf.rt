ghost use Rattle.std.specs.Prelude.{◌≡◌, ◌<◌, true, length, IfOk};
ghost use Rattle.tree_model.specs.System.{is_leaf_at};
ghost use Rattle.tree_model.specs.Admission.{Admitted};
ghost use Rattle.slack.specs.MostWork.{AreMostWorks};

use crate::budgets::most_budget;
use crate::works::most_works;
use std::alloc::{AllocError, Global};
use supply_bound::Periodic;
use tree_model::{Plan, System, own_tasks};

/// The greatest work of each task of leaf `q`, in slots and in file order, each task by itself:
/// with each work up to it the system is admitted, and with each greater one that fits before the
/// deadline beside the jitter it is not. Given budgets stand, and the others are computed anew.
/// `plan` admits the system. Fails where memory runs out.
///
/// One search finds the greatest budget of the leaf with which the nodes above it pass, and one
/// for each task the greatest work with which the leaf passes under that budget.
pub fn slacks(alloc: Global, sys: &System, plan: &Plan, q: usize) -> Result<Vec<u64>, AllocError>
    requires admitted { Admitted sys.now plan.now }
    requires is_part { q < length sys.now.parts }
    requires leaf { is_leaf_at sys.now q ≡ true }
    ensures { IfOk result (λ works. AreMostWorks sys.now q works.items) }
{
    let budget = most_budget(alloc, sys, plan, q)?;
    let part = &sys.parts()[q];
    let mut tasks = own_tasks(alloc, part)?;
    let supply = Periodic {
        period: part.period(),
        budget,
    };
    most_works(alloc, part.sched(), &mut tasks, supply)
}
