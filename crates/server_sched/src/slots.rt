ghost use Rattle.std.specs.Prelude.{◌≡◌, ℕ, ◌^◌, ◌<◌, ◌≤◌, List, Option, length, map, IfOk};
ghost use Rattle.guest_sched.specs.Spans.{AreSpans};
ghost use Rattle.tree_model.specs.Plans.{IsPlan};
ghost use Rattle.tree_model.specs.System.{IsSystem};
ghost use Rattle.tree_model.specs.Tree.{PermittedTree};
ghost use Rattle.tree_model.specs.FirstTree.{FirstTree};
ghost use Rattle.tree_model.specs.Releases.{AreReleases, jobs_at};
ghost use Rattle.server_sched.specs.Shapes.{TreeHolds};
ghost use Rattle.tree_spans.specs.TreeSpans.{AreLists, AreWindowsOf, node_at, runs_of};

use guest_sched::{Window, windows_of, written};
use slot_model::Job;
use std::alloc::{AllocError, Global};
use tree_model::{Plan, System, TreeRun};
use tree_spans::{NodeSpans, TreeSpans, span_tree};

/// The one first run of the tree over lists of slots, one a core, slot by slot: cores and inner
/// parts run the servers of their children, leaves their jobs.
pub fn run_tree(
    alloc: Global,
    sys: &System,
    plan: &Plan,
    jobs: &[Vec<Job>],
    given: &[Vec<bool>],
    slots: u64,
) -> Result<TreeRun, AllocError>
    requires plan { IsPlan sys.now plan.now }
    requires jobs { AreReleases sys.now (map (λ j. j.items) jobs.now) }
    requires one_each { length given.now ≡ length sys.now.cores }
    requires long { AreLists slots (map (λ g. g.items) given.now) }
    requires short { slots ≤ 1000000 }
    requires few { (q : ℕ) → q < length sys.now.parts →
        length (jobs_at (map (λ j. j.items) jobs.now) q) < 2 ^ 32 }
    ensures first { let supplies = map (λ g. g.items) given.now in
        IfOk result (λ run. FirstTree sys.now plan.now slots supplies
        (map (λ j. j.items) jobs.now) run.cores run.parts) }
    ensures permitted { let supplies = map (λ g. g.items) given.now in
        IfOk result (λ run. PermittedTree sys.now plan.now slots supplies
        (map (λ j. j.items) jobs.now) run.cores run.parts) }
    ensures holds { let supplies = map (λ g. g.items) given.now in
        IfOk result (λ run. TreeHolds sys.now plan.now slots supplies
        (map (λ j. j.items) jobs.now) run.cores run.parts) }
    ensures only { let supplies = map (λ g. g.items) given.now in
        IfOk result (λ run. (cores parts : List (List (Option ℕ))) →
        FirstTree sys.now plan.now slots supplies (map (λ j. j.items) jobs.now) cores parts →
        (cores ≡ run.cores) × (parts ≡ run.parts)) }
{
    let windows = core_windows(alloc, sys, given, slots)?;
    let tree = span_tree(alloc, sys, plan, jobs, &windows, slots)?;
    let cores = core_runs(alloc, &tree, slots)?;
    let parts = part_runs(alloc, &tree, slots)?;
    Ok(TreeRun { cores, parts })
}

/// The windows of each core's list of slots.
fn core_windows(
    alloc: Global,
    sys: &System,
    given: &[Vec<bool>],
    slots: u64,
) -> Result<Vec<Vec<Window>>, AllocError>
    requires { AreLists slots (map (λ g. g.items) given.now) }
    ensures system { IsSystem sys.now }
    ensures windows { IfOk result (λ windows. AreWindowsOf slots (map (λ g. g.items) given.now)
        (length given.now) (map (λ w. w.items) windows.items)) }
{
    let mut windows = Vec::with_capacity(alloc, sys.cores().len())?;
    for list in given {
        windows.push(windows_of(alloc, list)?)?;
    }
    Ok(windows)
}

/// The runs of the cores, slot by slot.
fn core_runs(
    alloc: Global,
    tree: &TreeSpans,
    slots: u64,
) -> Result<Vec<Vec<Option<u32>>>, AllocError>
    requires { (c : ℕ) → c < length tree.now.cores →
        AreSpans (node_at tree.now.cores c).spans slots }
    ensures { IfOk result (λ runs. map (λ r. r.items) runs.items ≡ runs_of tree.now.cores) }
{
    written_runs(alloc, tree.cores(), slots)
}

/// The runs of the parts, slot by slot.
fn part_runs(
    alloc: Global,
    tree: &TreeSpans,
    slots: u64,
) -> Result<Vec<Vec<Option<u32>>>, AllocError>
    requires { (q : ℕ) → q < length tree.now.parts →
        AreSpans (node_at tree.now.parts q).spans slots }
    ensures { IfOk result (λ runs. map (λ r. r.items) runs.items ≡ runs_of tree.now.parts) }
{
    written_runs(alloc, tree.parts(), slots)
}

/// The runs of nodes, slot by slot.
fn written_runs(
    alloc: Global,
    nodes: &[NodeSpans],
    slots: u64,
) -> Result<Vec<Vec<Option<u32>>>, AllocError>
    requires { (i : ℕ) → i < length nodes.now → AreSpans (node_at nodes.now i).spans slots }
    ensures { IfOk result (λ runs. map (λ r. r.items) runs.items ≡ runs_of nodes.now) }
{
    let mut runs = Vec::new(alloc);
    for node in nodes {
        runs.push(written(alloc, node.spans())?)?;
    }
    Ok(runs)
}
