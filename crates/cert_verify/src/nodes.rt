ghost use Rattle.std.specs.Prelude.{◌≡◌, ◌↔◌, ◌^◌, ◌<◌, ◌≤◌, IsTrue, IsOk, IfOk, IfErr, MatchResult, map, take, length};
ghost use Rattle.tree_model.specs.declared.system.TheConstants.{MAX_PARTS};
ghost use Rattle.tree_model.specs.Tree.{IsNode};
ghost use Rattle.tree_model.specs.Admission.{Admitted};
ghost use Rattle.cert_verify.specs.Proves.{nth_place, AreNodes, IsBudget, HasBudget, budgets_of, NodeProves, Proves};
ghost use Rattle.cert_verify.specs.Flaws.{FirstNode, NodeFails, FirstFlaw};
ghost use Rattle.cert_verify.specs.inner.Steps.{BudgetsFit, HaveBudgets, AreProved};
ghost use Rattle.cert_verify.specs.declared.flaw.Flaw.{Flaw as AnyFlaw};

use crate::Flaw;
use crate::claims::check_claims;
use slot_model::Task;
use tree_model::{
    Certificate, MAX_PARTS, Node, Place, System, budget_of, node_supply, period_of, sched_of,
    write_tasks,
};
use window_terms::Term;

/// Whether the certificate proves that the system is admitted under its budgets, or its first flaw.
/// It trusts nothing that the certificate says, and takes no memory.
pub fn verify(sys: &System, c: &Certificate) -> Result<(), Flaw>
    ensures exact { IsOk result ↔ Proves sys.now c.now.nodes }
    ensures flaw { IfErr result (λ flaw. FirstFlaw sys.now c.now.nodes flaw) }
    ensures only { (flaw : AnyFlaw) → FirstFlaw sys.now c.now.nodes flaw → result ≡ Err flaw }
    ensures admitted { IfOk result (λ _. Admitted sys.now (budgets_of sys.now c.now.nodes)) }
{
    let nodes = c.nodes.as_slice();
    if !are_nodes(sys, nodes) {
        return Err(Flaw::Nodes);
    }
    check_budgets(sys, nodes)?;
    let count = sys.parts().len();
    let mut budgets = [0; MAX_PARTS];
    write_budgets(&nodes[..count], &mut budgets);
    check_nodes(sys, &budgets[..count], nodes)
}

fn are_nodes(sys: &System, nodes: &[Node]) -> bool
    ensures { IsTrue result ↔ AreNodes sys.now nodes.now }
{
    let parts = sys.parts().len();
    if nodes.len() != parts + sys.cores().len() {
        return false;
    }
    for (k, node) in nodes.iter().enumerate() {
        if node.place != place_at(parts, k) {
            return false;
        }
    }
    true
}

/// The place of node `k`, after so many parts.
fn place_at(parts: usize, k: usize) -> Place
    requires { k < 2 ^ 32 }
    ensures { result ≡ nth_place parts k }
{
    if k < parts {
        Place::Part(k as u32)
    } else {
        Place::Core((k - parts) as u32)
    }
}

/// Whether each node has its budget, or the first that has not.
fn check_budgets(sys: &System, nodes: &[Node]) -> Result<(), Flaw>
    requires { AreNodes sys.now nodes.now }
    ensures have { IfOk result (λ _. HaveBudgets sys.now nodes.now (length nodes.now)) }
    ensures flaw { IfErr result (λ flaw. FirstFlaw sys.now nodes.now flaw) }
{
    for node in nodes {
        if !has_budget(sys, node) {
            return Err(Flaw::Budget(node.place));
        }
    }
    Ok(())
}

fn has_budget(sys: &System, node: &Node) -> bool
    requires { IsNode sys.now node.now.place }
    ensures { IsTrue result ↔ HasBudget sys.now node.now }
{
    node.period == period_of(sys, node.place) && is_budget(budget_of(sys, node.place), node)
}

fn is_budget(given: Option<u64>, node: &Node) -> bool
    ensures { IsTrue result ↔ IsBudget given node.now }
{
    match given {
        Some(given) => !node.computed && node.budget == given,
        None => node.computed && 1 <= node.budget && node.budget <= node.period,
    }
}

fn write_budgets(nodes: &[Node], into: &mut [u64])
    requires { length nodes.now ≤ length into.old }
    ensures { take (length nodes.now) into.new ≡ map (λ node. node.budget) nodes.now }
{
    for (q, node) in nodes.iter().enumerate() {
        into[q] = node.budget;
    }
}

/// Checks what each node claims under these budgets, in order.
fn check_nodes(sys: &System, budgets: &[u64], nodes: &[Node]) -> Result<(), Flaw>
    requires are_nodes { AreNodes sys.now nodes.now }
    requires have { HaveBudgets sys.now nodes.now (length nodes.now) }
    requires one_each { length budgets.now ≡ length sys.now.parts }
    requires fit { BudgetsFit sys.now budgets.now }
    ensures proved { IfOk result (λ _. AreProved sys.now budgets.now nodes.now (length nodes.now)) }
    ensures flaw { IfErr result
        (λ flaw.
        FirstNode nodes.now (NodeProves sys.now budgets.now) (NodeFails sys.now budgets.now flaw)) }
{
    let mut room = [Task::least(); MAX_PARTS];
    let mut terms = [Term::none(); MAX_PARTS];
    for node in nodes {
        check_node(sys, budgets, node, &mut room, &mut terms)?;
    }
    Ok(())
}

/// Checks what one node claims. `room` is for its tasks, and `terms` for their terms.
fn check_node(
    sys: &System,
    budgets: &[u64],
    node: &Node,
    room: &mut [Task],
    terms: &mut [Term],
) -> Result<(), Flaw>
    requires is_node { IsNode sys.now node.now.place }
    requires has { HasBudget sys.now node.now }
    requires one_each { length budgets.now ≡ length sys.now.parts }
    requires fit { BudgetsFit sys.now budgets.now }
    requires room { MAX_PARTS ≤ length room.old }
    ensures { MatchResult result (λ _. NodeProves sys.now budgets.now node.now)
        (λ flaw. NodeFails sys.now budgets.now flaw node.now) }
{
    let sched = sched_of(sys, node.place);
    let supply = node_supply(sys, budgets, node.place);
    let count = write_tasks(sys, budgets, node.place, room);
    check_claims(terms, sched, &room[..count], &supply, node)
}
