ghost use Rattle.std.specs.Prelude.{◌≡◌, ◌≢◌, ℕ, ◌+◌, ◌-◌, ◌^◌, ◌<◌, ◌≤◌, List, length, true, IfOk, IfErr, MatchResult};
ghost use Rattle.slot_model.specs.declared.task.TheConstants.{LIMIT};
ghost use Rattle.slot_model.specs.Task.{sporadic_tasks};
ghost use Rattle.slot_model.specs.Bound.{sbf, IsSmall, Passes};
ghost use Rattle.tree_model.specs.Admission.{Admitted, FirstRefusal};
ghost use Rattle.tree_model.specs.declared.system.TheConstants.{MAX_PARTS};
ghost use Rattle.tree_model.specs.NodeSupply.{node_budget};
ghost use Rattle.tree_model.specs.Tree.{IsNode, NoLoss};
ghost use Rattle.compose_tree.specs.Truth.{IsTight, RefusalHolds};
ghost use Rattle.cert_verify.specs.Proves.{budgets_of, Proves};
ghost use Rattle.certificate.specs.Made.{ListsPass, ListsLeast, IsCertificate};
ghost use Rattle.certificate.specs.inner.Steps.{IsMadeAt, AreMade};

use crate::levels::{pass_lists, short_lists};
use compose_tree::compose;
use slot_model::{Sched, Task};
use std::alloc::{AllocError, Global};
use supply_bound::Supply;
use tree_model::{
    Certificate, MAX_PARTS, Node, Place, Refusal, System, budget_of, node_supply, sched_of,
    write_tasks,
};
use window_terms::Term;

/// The certificate of a system that is admitted, or the first refusal. Under earliest deadline
/// first a node's points are those of the walk backwards from its horizon, under a fixed rank its
/// hits are the least. The witness of a computed budget is what is short first at one slot less.
pub fn certify(alloc: Global, sys: &System) -> Result<Certificate, Refusal>
    ensures made { IfOk result (λ c. IsCertificate sys.now c.nodes) }
    ensures proves { IfOk result (λ c. Proves sys.now c.nodes) }
    ensures admitted { IfOk result (λ c. Admitted sys.now (budgets_of sys.now c.nodes)) }
    ensures refusal { IfErr result (λ r. r ≢ Refusal.NoMemory → FirstRefusal sys.now r) }
    // where budgets admit the system, they are the certificate's
    ensures complete { (budgets : List ℕ) → Admitted sys.now budgets →
        MatchResult result (λ c. budgets_of sys.now c.nodes ≡ budgets) (λ r. r ≡ Refusal.NoMemory) }
    // what a certificate and a refusal say of supplies and releases
    ensures no_loss { IfOk result (λ c. NoLoss sys.now (budgets_of sys.now c.nodes)) }
    ensures tight { IfOk result (λ c. IsTight sys.now (budgets_of sys.now c.nodes)) }
    ensures holds { IfErr result (λ r. RefusalHolds sys.now r) }
{
    let plan = compose(alloc, sys)?;
    match make_nodes(alloc, sys, plan.budgets()) {
        Ok(nodes) => Ok(Certificate { nodes }),
        Err(_) => Err(Refusal::NoMemory),
    }
}

/// The nodes under these budgets: all parts and then all cores, in file order.
fn make_nodes(alloc: Global, sys: &System, budgets: &[u64]) -> Result<Vec<Node>, AllocError>
    requires { Admitted sys.now budgets.now }
    ensures { let count = length sys.now.parts + length sys.now.cores in
        IfOk result (λ nodes. AreMade sys.now budgets.now nodes.items count) }
{
    let mut room = vec![in alloc; Task::least(); MAX_PARTS]?;
    let mut terms = vec![in alloc; Term::none(); MAX_PARTS]?;
    let parts = sys.parts().len();
    let mut nodes = Vec::with_capacity(alloc, parts + sys.cores().len())?;
    for q in 0..parts as u32 {
        let place = Place::Part(q);
        nodes.push(make_node(alloc, sys, budgets, place, &mut room, &mut terms)?)?;
    }
    for c in 0..sys.cores().len() as u32 {
        let place = Place::Core(c);
        nodes.push(make_node(alloc, sys, budgets, place, &mut room, &mut terms)?)?;
    }
    Ok(nodes)
}

/// The node of a place. `room` is for its tasks, and `terms` for theirs.
fn make_node(
    alloc: Global,
    sys: &System,
    budgets: &[u64],
    place: Place,
    room: &mut [Task],
    terms: &mut [Term],
) -> Result<Node, AllocError>
    requires is_node { IsNode sys.now place }
    requires admitted { Admitted sys.now budgets.now }
    requires room { MAX_PARTS ≤ length room.old }
    ensures made { IfOk result (λ node. IsMadeAt sys.now budgets.now place node) }
    ensures budget { IfOk result (λ node. node.budget ≡ node_budget sys.now budgets.now place) }
{
    let sched = sched_of(sys, place);
    let supply = node_supply(sys, budgets, place);
    let count = write_tasks(sys, budgets, place, room);
    let tasks = &room[..count];
    let (points, hits) = pass_lists(alloc, terms, sched, tasks, &supply)?;
    let computed = budget_of(sys, place).is_none();
    let period = supply.cycle();
    let budget = supply.budget();
    let (witness, falls) = least_lists(alloc, terms, sched, tasks, computed, period, budget)?;
    Ok(Node {
        place,
        period,
        budget,
        computed,
        points,
        hits,
        witness,
        falls,
    })
}

/// The witness and the falls of a node with this budget: none where it was given. `room` is for the
/// terms of its tasks.
fn least_lists(
    alloc: Global,
    room: &mut [Term],
    sched: Sched,
    tasks: &[Task],
    computed: bool,
    period: u64,
    budget: u64,
) -> Result<(Option<u128>, Vec<u64>), AllocError>
    requires few { length tasks.now < 2 ^ 32 }
    requires some_budget { 1 ≤ budget }
    requires in_period { budget ≤ period }
    requires in_limit { period ≤ LIMIT }
    requires small { IsSmall sched (sporadic_tasks tasks.now) period }
    requires least { computed ≡ true →
        Passes sched (sporadic_tasks tasks.now) (sbf period (budget - 1)) → ⊥ }
    ensures { let T = sporadic_tasks tasks.now in
        IfOk result (λ lists.
        ListsLeast computed sched T period budget lists.0 lists.1.items) }
{
    if computed {
        short_lists(alloc, room, sched, tasks, period, budget)
    } else {
        Ok((None, Vec::new(alloc)))
    }
}
