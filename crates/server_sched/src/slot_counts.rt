ghost use Rattle.std.specs.Prelude.{◌≡◌, ℕ, ◌^◌, ◌<◌, ◌≤◌, [], true, false, length, map, slice_index_or, IfOk, IfSome};
ghost use Rattle.slot_model.specs.Task.{sporadic_tasks};
ghost use Rattle.slot_model.specs.Release.{LegalRelease};
ghost use Rattle.slot_model.specs.Run.{child_supply, holds_task};
ghost use Rattle.slot_model.specs.Miss.{AreInJitter, AreNamed, HoldsReleased};
ghost use Rattle.span_counts.specs.Counts.{AreCounts};
ghost use Rattle.tree_model.specs.declared.system.TheConstants.{MAX_PARTS};
ghost use Rattle.tree_model.specs.declared.place.Place.{Place as AnyPlace};
ghost use Rattle.tree_model.specs.Plans.{IsPlan};
ghost use Rattle.tree_model.specs.Releases.{AreReleases, jobs_at};
ghost use Rattle.tree_model.specs.System.{IsSystem, own_tasks_at, is_leaf_at};
ghost use Rattle.tree_model.specs.Tree.{IsNode, node_tasks, server_tasks, server_jobs, run_at, run_of, supply_of};
ghost use Rattle.tree_spans.specs.TreeSpans.{AreFewJobs};
ghost use Rattle.tree_spans.specs.TreeCounts.{AreTreeCounts};
ghost use Rattle.server_sched.specs.Shapes.{RunHolds, TreeHolds};
ghost use Rattle.server_sched.specs.inner.SlotCounts.{OfTree, ParentHolds, HasRun, AreCoreCounts, IsPartCount, ArePartCounts};

use guest_sched::{spans_of, windows_of};
use release_pattern::synchronous_jobs;
use slot_model::{Job, Task};
use span_counts::{Counts, count_level};
use std::alloc::{AllocError, Global};
use tree_model::{Place, Plan, System, TreeRun, write_tasks};
use tree_spans::{TreeCounts, rank_of, room_for_tasks};

/// What is counted of a run of a tree that stands slot by slot, over these jobs and these lists of
/// slots. It may be any run of that shape that holds jobs which are released, as `run_tree` answers
/// one.
pub fn count_run(
    alloc: Global,
    sys: &System,
    plan: &Plan,
    jobs: &[Vec<Job>],
    given: &[Vec<bool>],
    run: &TreeRun,
    slots: u64,
) -> Result<TreeCounts, AllocError>
    requires plan { IsPlan sys.now plan.now }
    requires jobs { AreReleases sys.now (map (λ j. j.items) jobs.now) }
    requires one_each { length given.now ≡ length sys.now.cores }
    requires short { slots ≤ 1000000 }
    requires few { (q : ℕ) → q < length sys.now.parts →
        length (jobs_at (map (λ j. j.items) jobs.now) q) < 2 ^ 32 }
    requires holds { TreeHolds sys.now plan.now slots (map (λ g. g.items) given.now)
        (map (λ j. j.items) jobs.now) run.now.cores run.now.parts }
    ensures { IfOk result (λ counts. AreTreeCounts sys.now plan.now slots
        (map (λ g. g.items) given.now) (map (λ j. j.items) jobs.now)
        run.now.cores run.now.parts counts) }
{
    let mut room = room_for_tasks(alloc)?;
    let cores = core_counts(alloc, sys, plan.budgets(), given, run, slots, &mut room)?;
    let parts = part_counts(alloc, sys, plan.budgets(), jobs, run, slots, &mut room)?;
    Ok(TreeCounts { cores, parts })
}

/// What is counted of each core. `room` is for the tasks of one node.
fn core_counts(
    alloc: Global,
    sys: &System,
    budgets: &[u64],
    given: &[Vec<bool>],
    run: &TreeRun,
    slots: u64,
    room: &mut [Task],
) -> Result<Vec<Counts>, AllocError>
    requires plan { IsPlan sys.now budgets.now }
    requires one_each { length given.now ≡ length sys.now.cores }
    requires one_run_each { length run.now.cores ≡ length sys.now.cores }
    requires short { slots ≤ 1000000 }
    requires holds { (c : ℕ) → c < length sys.now.cores →
        RunHolds (server_jobs sys.now budgets.now (AnyPlace.Core c) slots)
        (slice_index_or (map (λ g. g.items) given.now) c []) (run_at run.now.cores c) }
    requires room { MAX_PARTS ≤ length room.old }
    ensures system { IsSystem sys.now }
    ensures counts { IfOk result (λ counts. AreCoreCounts sys.now budgets.now slots
        (map (λ g. g.items) given.now) run.now.cores (length sys.now.cores) counts.items) }
{
    let mut counts = Vec::new(alloc);
    for c in 0..sys.cores().len() {
        let place = Place::Core(c as u32);
        let own = &given[c];
        let core_run = node_run(run, place);
        counts.push(server_counts(alloc, sys, budgets, place, own, core_run, slots, room)?)?;
    }
    Ok(counts)
}

/// What is counted of each part.
fn part_counts(
    alloc: Global,
    sys: &System,
    budgets: &[u64],
    jobs: &[Vec<Job>],
    run: &TreeRun,
    slots: u64,
    room: &mut [Task],
) -> Result<Vec<Counts>, AllocError>
    requires plan { IsPlan sys.now budgets.now }
    requires jobs { AreReleases sys.now (map (λ j. j.items) jobs.now) }
    requires few { AreFewJobs sys.now budgets.now slots (map (λ j. j.items) jobs.now) }
    requires holds { OfTree sys.now budgets.now slots (map (λ j. j.items) jobs.now)
        run.now.cores run.now.parts }
    requires room { MAX_PARTS ≤ length room.old }
    ensures { IfOk result (λ counts. ArePartCounts sys.now budgets.now slots
        (map (λ j. j.items) jobs.now) run.now.cores run.now.parts (length sys.now.parts)
        counts.items) }
{
    let mut counts = Vec::new(alloc);
    for q in 0..sys.parts().len() {
        let given = part_slots(alloc, sys, budgets, q as u32, run, slots, room)?;
        let own = &jobs[q];
        let part_run = node_run(run, Place::Part(q as u32));
        let new = part_count(
            alloc, sys, budgets, q as u32, own, &given, part_run, slots, room,
        )?;
        counts.push(new)?;
    }
    Ok(counts)
}

/// The slots of a part: those at which its parent's run holds one of its jobs.
fn part_slots(
    alloc: Global,
    sys: &System,
    budgets: &[u64],
    q: u32,
    run: &TreeRun,
    slots: u64,
    room: &mut [Task],
) -> Result<Vec<bool>, AllocError>
    requires is_part { q < length sys.now.parts }
    requires plan { IsPlan sys.now budgets.now }
    requires few { (node : AnyPlace) → IsNode sys.now node →
        length (server_jobs sys.now budgets.now node slots) < 2 ^ 32 }
    requires cores { length run.now.cores ≡ length sys.now.cores }
    requires parts { length run.now.parts ≡ length sys.now.parts }
    requires parent { ParentHolds sys.now budgets.now slots q run.now.cores run.now.parts }
    requires room { MAX_PARTS ≤ length room.old }
    ensures { IfOk result (λ given.
        given.items ≡ supply_of sys.now budgets.now slots run.now.cores run.now.parts q) }
{
    let parent = sys.parts()[q as usize].parent().place();
    let count = write_tasks(sys, budgets, parent, room);
    let jobs = synchronous_jobs(alloc, &room[..count], 0, slots)?;
    child_slots(alloc, &jobs, node_run(run, parent), rank_of(sys, q))
}

/// The run of a node.
fn node_run(run: &TreeRun, place: Place) -> &[Option<u32>]
    requires { HasRun run.now.cores run.now.parts place }
    ensures { result.now ≡ run_of run.now.cores run.now.parts place }
{
    match place {
        Place::Core(c) => &run.cores[c as usize],
        Place::Part(q) => &run.parts[q as usize],
    }
}

/// The slots at which a run holds a job of task `k`.
fn child_slots(
    alloc: Global,
    jobs: &[Job],
    run: &[Option<u32>],
    k: usize,
) -> Result<Vec<bool>, AllocError>
    requires { HoldsReleased jobs.now run.now }
    ensures { IfOk result (λ given. given.items ≡ child_supply jobs.now run.now k) }
{
    let mut given = Vec::with_capacity(alloc, run.len())?;
    for entry in run {
        given.push(holds_task(jobs, *entry, k))?;
    }
    Ok(given)
}

fn holds_task(jobs: &[Job], entry: Option<u32>, k: usize) -> bool
    requires { IfSome entry (λ j. j < length jobs.now) }
    ensures { result ≡ holds_task jobs.now entry k }
{
    match entry {
        Some(job) => jobs[job as usize].task as usize == k,
        None => false,
    }
}

/// What is counted of a part.
fn part_count(
    alloc: Global,
    sys: &System,
    budgets: &[u64],
    q: u32,
    jobs: &[Job],
    given: &[bool],
    run: &[Option<u32>],
    slots: u64,
    room: &mut [Task],
) -> Result<Counts, AllocError>
    requires is_part { q < length sys.now.parts }
    requires plan { IsPlan sys.now budgets.now }
    requires few { length (server_jobs sys.now budgets.now (AnyPlace.Part q) slots) < 2 ^ 32 }
    requires legal { is_leaf_at sys.now q ≡ true →
        LegalRelease (own_tasks_at sys.now q) jobs.now }
    requires inner { is_leaf_at sys.now q ≡ false →
        RunHolds (server_jobs sys.now budgets.now (AnyPlace.Part q) slots) given.now run.now }
    requires leaf { is_leaf_at sys.now q ≡ true → RunHolds jobs.now given.now run.now }
    requires room { MAX_PARTS ≤ length room.old }
    ensures { IfOk result (λ counts.
        IsPartCount sys.now budgets.now slots q jobs.now given.now run.now counts) }
{
    if sys.parts()[q as usize].is_leaf() {
        leaf_counts(alloc, sys, budgets, q, jobs, given, run, room)
    } else {
        server_counts(alloc, sys, budgets, Place::Part(q), given, run, slots, room)
    }
}

/// What is counted of a leaf's jobs.
fn leaf_counts(
    alloc: Global,
    sys: &System,
    budgets: &[u64],
    q: u32,
    jobs: &[Job],
    given: &[bool],
    run: &[Option<u32>],
    room: &mut [Task],
) -> Result<Counts, AllocError>
    requires is_part { q < length sys.now.parts }
    requires is_leaf { is_leaf_at sys.now q ≡ true }
    requires plan { IsPlan sys.now budgets.now }
    requires legal { LegalRelease (own_tasks_at sys.now q) jobs.now }
    requires holds { RunHolds jobs.now given.now run.now }
    requires room { MAX_PARTS ≤ length room.old }
    ensures { IfOk result (λ counts.
        AreCounts (own_tasks_at sys.now q) jobs.now given.now run.now counts) }
{
    let count = write_tasks(sys, budgets, Place::Part(q), room);
    count_slots(alloc, &room[..count], jobs, given, run)
}

/// What is counted of a node's servers.
fn server_counts(
    alloc: Global,
    sys: &System,
    budgets: &[u64],
    place: Place,
    given: &[bool],
    run: &[Option<u32>],
    slots: u64,
    room: &mut [Task],
) -> Result<Counts, AllocError>
    requires node { IsNode sys.now place }
    requires servers { node_tasks sys.now budgets.now place ≡
        server_tasks sys.now budgets.now place }
    requires plan { IsPlan sys.now budgets.now }
    requires few { length (server_jobs sys.now budgets.now place slots) < 2 ^ 32 }
    requires holds { RunHolds (server_jobs sys.now budgets.now place slots) given.now
        run.now }
    requires room { MAX_PARTS ≤ length room.old }
    ensures { IfOk result (λ counts. AreCounts (server_tasks sys.now budgets.now place)
        (server_jobs sys.now budgets.now place slots) given.now run.now counts) }
{
    let count = write_tasks(sys, budgets, place, room);
    let tasks = &room[..count];
    let jobs = synchronous_jobs(alloc, tasks, 0, slots)?;
    count_slots(alloc, tasks, &jobs, given, run)
}

/// What is counted of one run over a list of slots.
fn count_slots(
    alloc: Global,
    tasks: &[Task],
    jobs: &[Job],
    given: &[bool],
    run: &[Option<u32>],
) -> Result<Counts, AllocError>
    requires named { AreNamed (sporadic_tasks tasks.now) jobs.now }
    requires in_jitter { AreInJitter (sporadic_tasks tasks.now) jobs.now }
    requires released { HoldsReleased jobs.now run.now }
    requires long { length run.now ≡ length given.now }
    ensures { IfOk result (λ counts.
        AreCounts (sporadic_tasks tasks.now) jobs.now given.now run.now counts) }
{
    let windows = windows_of(alloc, given)?;
    let spans = spans_of(alloc, run)?;
    count_level(alloc, tasks, jobs, &windows, &spans, given.len() as u64)
}
