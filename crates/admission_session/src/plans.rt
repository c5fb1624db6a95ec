ghost use Rattle.std.specs.Prelude.{◌≡◌, ◌<◌, ◌-◌, ◌++◌, [], ◌∷◌, length, take, IfOk, IfErr};
ghost use Rattle.std.specs.List.{remove};

use std::alloc::{AllocError, Global};
use tree_model::Plan;

/// Adds a budget of 1 behind all.
pub fn one_budget_more(plan: &mut Plan) -> Result<(), AllocError>
    ensures more { IfOk result (λ _. plan.new ≡ plan.old ++ 1 ∷ []) }
    ensures unchanged { IfErr result (λ _. plan.new ≡ plan.old) }
{
    plan.budgets.push(1)?;
    Ok(())
}

/// Takes the last budget off.
pub fn one_budget_less(plan: &mut Plan)
    ensures { plan.new ≡ take (length plan.old - 1) plan.old }
{
    let _budget = plan.budgets.pop();
}

/// A plan without the budget of part `q`.
pub fn less_budget(alloc: Global, plan: &Plan, q: usize) -> Result<Plan, AllocError>
    requires { q < length plan.now }
    ensures { IfOk result (λ fewer. fewer ≡ remove plan.now q) }
{
    let mut budgets = Vec::from_slice(alloc, plan.budgets())?;
    let _freed = budgets.remove(q);
    Ok(Plan { budgets })
}
