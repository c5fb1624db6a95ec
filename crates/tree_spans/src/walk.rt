ghost use Rattle.std.specs.Prelude.{◌≡◌, ◌≢◌, ℕ, ◌+◌, ◌^◌, ◌<◌, ◌≤◌, true, List, length, map, IfOk};
ghost use Rattle.guest_sched.specs.Spans.{AreWindows, slots_of};
ghost use Rattle.slot_model.specs.Release.{LegalRelease};
ghost use Rattle.tree_model.specs.declared.system.TheConstants.{MAX_PARTS};
ghost use Rattle.tree_model.specs.declared.place.Place.{Place as AnyPlace};
ghost use Rattle.tree_model.specs.Plans.{IsPlan};
ghost use Rattle.tree_model.specs.System.{IsSystem, own_tasks_at, is_leaf_at};
ghost use Rattle.tree_model.specs.Tree.{IsNode, place_of, node_tasks, server_tasks, server_jobs, rank_among};
ghost use Rattle.tree_model.specs.Releases.{AreReleases};
ghost use Rattle.tree_spans.specs.NodeView.{NodeView};
ghost use Rattle.tree_spans.specs.Shares.{share_at};
ghost use Rattle.tree_spans.specs.TreeSpans.{AreSupplies, AreFewJobs, supplies_of, parent_of, IsServerNode, IsLeafNode, IsPartNode};
ghost use Rattle.tree_spans.specs.KeptNodes.{IsKeptOf, IsTreeKept};
ghost use Rattle.tree_spans.specs.inner.Walking.{AreCoresKept, HasCores, ArePartsKept, IsKeptIn, HasChild};

use crate::kept::KeptNode;
use guest_sched::Window;
use slot_model::{Job, Task};
use std::alloc::{AllocError, Global};
use tree_model::{MAX_PARTS, Parent, Place, Plan, System, sched_of, write_tasks};

/// What is kept of the runs of a tree: of each core and of each part, in file order.
#[derive(Drop)]
pub struct KeptTree<K> {
    pub cores: Vec<K>,
    pub parts: Vec<K>,
}

/// Runs a tree over `slots` slots, of which each core has those of its windows: cores and inner
/// parts run the servers of their children, leaves their jobs. A node runs once, after its parent
/// and over the windows that are kept for it there, and the parent is told when it has run.
pub fn walk_tree<K: KeptNode>(
    alloc: Global,
    sys: &System,
    plan: &Plan,
    jobs: &[Vec<Job>],
    given: &[Vec<Window>],
    slots: u64,
) -> Result<KeptTree<K>, AllocError>
    requires plan { IsPlan sys.now plan.now }
    requires jobs { AreReleases sys.now (map (λ j. j.items) jobs.now) }
    requires windows { AreSupplies sys.now slots (map (λ g. g.items) given.now) }
    requires few { AreFewJobs sys.now plan.now slots (map (λ j. j.items) jobs.now) }
    requires takes { K.takes slots }
    ensures system { IfOk result (λ _. IsSystem sys.now) }
    ensures tree { let supplies = supplies_of (map (λ g. g.items) given.now) slots in
        IfOk result (λ tree. IsTreeKept K.is_kept_of sys.now plan.now slots supplies
        (map (λ j. j.items) jobs.now) tree.cores.items tree.parts.items) }
{
    let mut room = room_for_tasks(alloc)?;
    let mut cores = core_nodes(alloc, sys, plan.budgets(), given, slots, &mut room)?;
    let parts = part_nodes(
        alloc,
        sys,
        plan.budgets(),
        jobs,
        &mut cores,
        slots,
        &mut room,
    )?;
    Ok(KeptTree { cores, parts })
}

/// Room for the tasks of one node.
pub fn room_for_tasks(alloc: Global) -> Result<Vec<Task>, AllocError>
    ensures { IfOk result (λ room. MAX_PARTS ≤ length room.items) }
{
    vec![in alloc; Task::least(); MAX_PARTS]
}

/// Runs the cores. `room` is for the tasks of one node.
fn core_nodes<K: KeptNode>(
    alloc: Global,
    sys: &System,
    budgets: &[u64],
    given: &[Vec<Window>],
    slots: u64,
    room: &mut [Task],
) -> Result<Vec<K>, AllocError>
    requires plan { IsPlan sys.now budgets.now }
    requires windows { AreSupplies sys.now slots (map (λ g. g.items) given.now) }
    requires few { (c : ℕ) → c < length sys.now.cores →
        length (server_jobs sys.now budgets.now (AnyPlace.Core c) slots) < 2 ^ 32 }
    requires takes { K.takes slots }
    requires room { MAX_PARTS ≤ length room.old }
    ensures system { IsSystem sys.now }
    ensures kept { IfOk result (λ kept. AreCoresKept K.is_kept_of sys.now budgets.now slots
        (map (λ g. g.items) given.now) (length sys.now.cores) kept.items) }
{
    let mut nodes = Vec::new(alloc);
    for c in 0..sys.cores().len() as u32 {
        let windows = &given[c as usize];
        let core: K = server_node(alloc, sys, budgets, Place::Core(c), windows, slots, room)?;
        nodes.push(core)?;
    }
    Ok(nodes)
}

/// Runs the parts, after the cores.
fn part_nodes<K: KeptNode>(
    alloc: Global,
    sys: &System,
    budgets: &[u64],
    jobs: &[Vec<Job>],
    cores: &mut [K],
    slots: u64,
    room: &mut [Task],
) -> Result<Vec<K>, AllocError>
    requires plan { IsPlan sys.now budgets.now }
    requires jobs { AreReleases sys.now (map (λ j. j.items) jobs.now) }
    requires few { AreFewJobs sys.now budgets.now slots (map (λ j. j.items) jobs.now) }
    requires takes { K.takes slots }
    requires cores { HasCores K.is_kept_of sys.now budgets.now slots cores.old }
    requires room { MAX_PARTS ≤ length room.old }
    ensures { (h : HasCores K.is_kept_of sys.now budgets.now slots cores.old) →
        IfOk result (λ parts. ArePartsKept K.is_kept_of sys.now budgets.now slots
        (map (λ j. j.items) jobs.now) h.nodes (length sys.now.parts) cores.new parts.items) }
{
    let mut nodes = Vec::new(alloc);
    for q in 0..sys.parts().len() as u32 {
        let parent = parent_of(sys, q);
        let rank = rank_of(sys, q);
        let windows = share_of(cores, &nodes, parent, rank);
        let own = &jobs[q as usize];
        let part: K = part_node(alloc, sys, budgets, q, own, windows, slots, room)?;
        let_go(alloc, cores, &mut nodes, parent, rank);
        nodes.push(part)?;
    }
    Ok(nodes)
}

/// The parent of a part.
fn parent_of(sys: &System, q: u32) -> Parent
    requires { q < length sys.now.parts }
    ensures { place_of result ≡ parent_of sys.now q }
{
    sys.parts()[q as usize].parent()
}

/// The windows that the next child of a node gets.
fn share_of<'a, K: KeptNode>(
    cores: &'a [K],
    parts: &'a [K],
    parent: Parent,
    rank: usize,
) -> &'a [Window]
    requires { (node : NodeView)
        × HasChild K.is_kept_of cores.now parts.now (place_of parent) node rank }
    ensures { (node : NodeView) →
        HasChild K.is_kept_of cores.now parts.now (place_of parent) node rank →
        result.now ≡ share_at node.shares rank }
{
    match parent {
        Parent::Core(c) => cores[c as usize].share(rank),
        Parent::Part(r) => parts[r as usize].share(rank),
    }
}

/// Tells a node that its next child has run.
fn let_go<K: KeptNode>(alloc: Global, cores: &mut [K], parts: &mut [K], parent: Parent, rank: usize)
    requires { (node : NodeView)
        × HasChild K.is_kept_of cores.old parts.old (place_of parent) node rank }
    ensures parent { (node : NodeView) →
        HasChild K.is_kept_of cores.old parts.old (place_of parent) node rank →
        IsKeptIn K.is_kept_of cores.new parts.new (place_of parent) node (rank + 1) }
    ensures others { (place : AnyPlace) (node : NodeView) (k : ℕ) → place ≢ place_of parent →
        IsKeptIn K.is_kept_of cores.old parts.old place node k →
        IsKeptIn K.is_kept_of cores.new parts.new place node k }
{
    match parent {
        Parent::Core(c) => cores[c as usize].let_go(alloc, rank),
        Parent::Part(r) => parts[r as usize].let_go(alloc, rank),
    }
}

/// The place of a part among the children of its parent.
pub fn rank_of(sys: &System, q: u32) -> usize
    requires { q < length sys.now.parts }
    ensures { result ≡ rank_among sys.now q }
{
    let parts = sys.parts();
    let parent = parts[q as usize].parent().place();
    let mut rank = 0;
    for earlier in 0..q as usize {
        if parts[earlier].is_child_of(parent) {
            rank += 1;
        }
    }
    rank
}

/// Runs a part over its windows.
fn part_node<K: KeptNode>(
    alloc: Global,
    sys: &System,
    budgets: &[u64],
    q: u32,
    jobs: &[Job],
    given: &[Window],
    slots: u64,
    room: &mut [Task],
) -> Result<K, AllocError>
    requires is_part { q < length sys.now.parts }
    requires plan { IsPlan sys.now budgets.now }
    requires few_servers { let place = AnyPlace.Part q in
        length (server_jobs sys.now budgets.now place slots) < 2 ^ 32 }
    requires legal { is_leaf_at sys.now q ≡ true →
        LegalRelease (own_tasks_at sys.now q) jobs.now }
    requires few_jobs { length jobs.now < 2 ^ 32 }
    requires windows { AreWindows given.now slots }
    requires takes { K.takes slots }
    requires room { MAX_PARTS ≤ length room.old }
    ensures { IfOk result (λ kept. IsKeptOf K.is_kept_of
        (IsPartNode sys.now budgets.now slots q jobs.now (slots_of given.now slots)) kept) }
{
    if sys.parts()[q as usize].is_leaf() {
        leaf_node(alloc, sys, budgets, q, jobs, given, slots, room)
    } else {
        server_node(alloc, sys, budgets, Place::Part(q), given, slots, room)
    }
}

/// Runs a leaf's jobs.
fn leaf_node<K: KeptNode>(
    alloc: Global,
    sys: &System,
    budgets: &[u64],
    q: u32,
    jobs: &[Job],
    given: &[Window],
    slots: u64,
    room: &mut [Task],
) -> Result<K, AllocError>
    requires is_part { q < length sys.now.parts }
    requires leaf { is_leaf_at sys.now q ≡ true }
    requires plan { IsPlan sys.now budgets.now }
    requires legal { LegalRelease (own_tasks_at sys.now q) jobs.now }
    requires few { length jobs.now < 2 ^ 32 }
    requires windows { AreWindows given.now slots }
    requires room { MAX_PARTS ≤ length room.old }
    ensures { IfOk result (λ kept. IsKeptOf K.is_kept_of
        (IsLeafNode sys.now slots q jobs.now (slots_of given.now slots)) kept) }
{
    let place = Place::Part(q);
    let count = write_tasks(sys, budgets, place, room);
    let sched = sched_of(sys, place);
    K::of_guests(alloc, sched, &room[..count], jobs, given, slots)
}

/// Runs a node's servers.
fn server_node<K: KeptNode>(
    alloc: Global,
    sys: &System,
    budgets: &[u64],
    place: Place,
    given: &[Window],
    slots: u64,
    room: &mut [Task],
) -> Result<K, AllocError>
    requires node { IsNode sys.now place }
    requires servers { node_tasks sys.now budgets.now place ≡
        server_tasks sys.now budgets.now place }
    requires plan { IsPlan sys.now budgets.now }
    requires few { length (server_jobs sys.now budgets.now place slots) < 2 ^ 32 }
    requires windows { AreWindows given.now slots }
    requires takes { K.takes slots }
    requires room { MAX_PARTS ≤ length room.old }
    ensures { IfOk result (λ kept. IsKeptOf K.is_kept_of
        (IsServerNode sys.now budgets.now slots place (slots_of given.now slots)) kept) }
{
    let count = write_tasks(sys, budgets, place, room);
    let sched = sched_of(sys, place);
    K::of_servers(alloc, sched, &room[..count], given, slots)
}
