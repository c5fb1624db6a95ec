ghost use Rattle.std.specs.Prelude.{◌≡◌, ℕ, List, Option, map, IfOk};
ghost use Rattle.tree_model.specs.Plans.{IsPlan};
ghost use Rattle.tree_model.specs.Tree.{PermittedTree};
ghost use Rattle.tree_model.specs.FirstTree.{FirstTree, OneFirstTree};
ghost use Rattle.tree_model.specs.Releases.{AreReleases};
ghost use Rattle.tree_spans.specs.NodeView.{counts_of};
ghost use Rattle.tree_spans.specs.TreeCounts.{AreTreeCounts};
ghost use Rattle.tree_spans.specs.TreeSpans.{AreSupplies, AreFewJobs, runs_of, supplies_of, AreTreeSpans};

use crate::node::{NodeSpans, TreeSpans};
use crate::walk::{KeptTree, walk_tree};
use guest_sched::Window;
use slot_model::Job;
use std::alloc::{AllocError, Global};
use tree_model::{Plan, System};

/// The one first run of the tree over `slots` slots, of which each core has those of its windows:
/// cores and inner parts run the servers of their children, leaves their jobs. Its memory is that
/// of its jobs and changes, and none is for a slot.
pub fn span_tree(
    alloc: Global,
    sys: &System,
    plan: &Plan,
    jobs: &[Vec<Job>],
    given: &[Vec<Window>],
    slots: u64,
) -> Result<TreeSpans, AllocError>
    requires plan { IsPlan sys.now plan.now }
    requires jobs { AreReleases sys.now (map (λ j. j.items) jobs.now) }
    requires windows { AreSupplies sys.now slots (map (λ g. g.items) given.now) }
    requires few { AreFewJobs sys.now plan.now slots (map (λ j. j.items) jobs.now) }
    ensures spans { let supplies = supplies_of (map (λ g. g.items) given.now) slots in
        IfOk result (λ tree. AreTreeSpans sys.now plan.now slots supplies
        (map (λ j. j.items) jobs.now) tree) }
    ensures permitted { let supplies = supplies_of (map (λ g. g.items) given.now) slots in
        IfOk result (λ tree. PermittedTree sys.now plan.now slots supplies
        (map (λ j. j.items) jobs.now) (runs_of tree.cores) (runs_of tree.parts)) }
    ensures counts { let supplies = supplies_of (map (λ g. g.items) given.now) slots in
        IfOk result (λ tree. AreTreeCounts sys.now plan.now slots supplies
        (map (λ j. j.items) jobs.now) (runs_of tree.cores) (runs_of tree.parts)
        (record { cores = counts_of tree.cores; parts = counts_of tree.parts })) }
    ensures only { let supplies = supplies_of (map (λ g. g.items) given.now) slots in
        IfOk result (λ tree. (cores parts : List (List (Option ℕ))) →
        FirstTree sys.now plan.now slots supplies (map (λ j. j.items) jobs.now) cores parts →
        (cores ≡ runs_of tree.cores) × (parts ≡ runs_of tree.parts)) }
    ensures one { let supplies = supplies_of (map (λ g. g.items) given.now) slots in
        IfOk result (λ _. OneFirstTree sys.now plan.now slots supplies
        (map (λ j. j.items) jobs.now)) }
{
    let tree: KeptTree<NodeSpans> = walk_tree(alloc, sys, plan, jobs, given, slots)?;
    Ok(TreeSpans {
        cores: tree.cores,
        parts: tree.parts,
    })
}
