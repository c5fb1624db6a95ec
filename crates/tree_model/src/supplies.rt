ghost use Rattle.std.specs.Prelude.{◌≡◌, ◌≤◌, ◌↔◌, Bool, List, Some, length};
ghost use Rattle.slot_model.specs.Bound.{sbf};
ghost use Rattle.supply_bound.specs.NodeSupplies.{numbers_of, bound_of, cycle_of, amount_of, Conforms};
ghost use Rattle.tree_model.specs.System.{IsPeriod, IsCoreSupply, IsSystem};
ghost use Rattle.tree_model.specs.Tree.{core_bound, core_cycle, core_budget, CoreConforms, IsNode, node_sched, node_bound, node_cycle, given_budget};
ghost use Rattle.tree_model.specs.NodeSupply.{node_numbers, node_budget, BudgetFits};

use crate::{Core, Part, Place, System};
use slot_model::Sched;
use supply_bound::{NodeSupply, Periodic, Supply};

impl Core {
    /// Every slot, or the core's own budget in every period.
    pub fn node_supply(&self) -> NodeSupply
        requires { IsCoreSupply self.now.supply }
        ensures numbers { numbers_of result ≡ self.now.supply }
        ensures bound { bound_of result ≡ core_bound self.now.supply }
        ensures cycle { cycle_of result ≡ core_cycle self.now.supply }
        ensures budget { amount_of result ≡ core_budget self.now.supply }
        ensures conforms { (slots : List Bool) →
            Conforms result slots ↔ CoreConforms self.now.supply slots }
    {
        match self.supply {
            None => NodeSupply::Full,
            Some((period, budget)) => NodeSupply::Periodic(Periodic { period, budget }),
        }
    }
}

impl Part {
    /// What the part's server gives with this budget, in slots: the budget in every period.
    pub fn node_supply(&self, budget: u64) -> NodeSupply
        requires period { IsPeriod self.now.period }
        requires in_period { budget ≤ self.now.period }
        ensures numbers { numbers_of result ≡ Some (self.now.period, budget) }
        ensures bound { bound_of result ≡ sbf self.now.period budget }
        ensures cycle { cycle_of result ≡ self.now.period }
        ensures budget { amount_of result ≡ budget }
    {
        NodeSupply::Periodic(Periodic {
            period: self.period,
            budget,
        })
    }
}

/// The scheduler of a node.
pub fn sched_of(sys: &System, place: Place) -> Sched
    requires { IsNode sys.now place }
    ensures sched { result ≡ node_sched sys.now place }
    ensures system { IsSystem sys.now }
{
    match place {
        Place::Core(c) => sys.cores()[c as usize].sched,
        Place::Part(q) => sys.parts()[q as usize].sched(),
    }
}

/// The supply of a node: a core's own, or that of a part's server. `budgets` has one entry a part,
/// in slots; that of the part is read.
pub fn node_supply(sys: &System, budgets: &[u64], place: Place) -> NodeSupply
    requires is_node { IsNode sys.now place }
    requires one_each { length budgets.now ≡ length sys.now.parts }
    requires in_period { BudgetFits sys.now budgets.now place }
    ensures numbers { numbers_of result ≡ node_numbers sys.now budgets.now place }
    ensures bound { bound_of result ≡ node_bound sys.now budgets.now place }
    ensures cycle { cycle_of result ≡ node_cycle sys.now place }
    ensures budget { amount_of result ≡ node_budget sys.now budgets.now place }
{
    match place {
        Place::Core(c) => sys.cores()[c as usize].node_supply(),
        Place::Part(q) => sys.parts()[q as usize].node_supply(budgets[q as usize]),
    }
}

/// The period of a node's supply, in slots; 1 at a full core.
pub fn period_of(sys: &System, place: Place) -> u64
    requires { IsNode sys.now place }
    ensures { result ≡ node_cycle sys.now place }
{
    match place {
        Place::Core(c) => sys.cores()[c as usize].node_supply().cycle(),
        Place::Part(q) => sys.parts()[q as usize].period(),
    }
}

/// The budget that is given for a node, in slots; 1 at a full core.
pub fn budget_of(sys: &System, place: Place) -> Option<u64>
    requires { IsNode sys.now place }
    ensures { result ≡ given_budget sys.now place }
{
    match place {
        Place::Core(c) => Some(sys.cores()[c as usize].node_supply().budget()),
        Place::Part(q) => sys.parts()[q as usize].budget(),
    }
}
