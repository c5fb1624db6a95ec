ghost use Rattle.std.specs.Prelude.{◌≡◌, ◌^◌, ◌*◌, ◌≤◌, ◌<◌, length, map, sum, sum_by, IfOk};
ghost use Rattle.slot_model.specs.Slots.{sum_below};
ghost use Rattle.guest_sched.specs.Spans.{run_of};
ghost use Rattle.span_counts.specs.Pending.{pairs_pending};
ghost use Rattle.tree_model.specs.Releases.{jobs_at};
ghost use Rattle.tree_spans.specs.TreeSpans.{node_at, runs_of, AreTreeSpans};
ghost use Rattle.bulk_host.specs.Host.{bulk_host, bulk_budgets};
ghost use Rattle.bulk_run.specs.Summary.{bulk_slots, bulk_supplies, bulk_jobs as jobs_of_host, counts_in, AreBulkCounts};
ghost use Rattle.bulk_run.specs.inner.Steps.{IsGuestRun, AreGuestRuns, AreHostCounts, AreBelow, times, plus};

use bulk_host::{bulk_jobs, make_bulk};
use compose_tree::compose;
use server_sched::{NodeSpans, Pattern, TreeSpans, core_supplies, span_tree};
use slot_model::Job;
use span_counts::count_pending;
use std::alloc::{AllocError, Global};
use tree_model::{Plan, System};

/// The slots of the run.
const SLOTS: u64 = 100_000;

/// What is counted of a generated host and of its run: guests, cores, the sum of the budgets, the
/// jobs of the guests, the misses at all nodes, and the pairs of a guest's job and a slot at which
/// the job is pending.
#[derive(Clone, Copy, Debug, PartialEq, Eq)]
pub struct BulkCounts {
    pub guests: u64,
    pub cores: u64,
    pub budgets: u64,
    pub jobs: u64,
    pub missed: u64,
    pub pending: u64,
}

impl BulkCounts {
    /// What is counted of `cores` cores that are counted alike.
    fn times(self, cores: u64) -> BulkCounts
        requires cores { cores ≤ 32 }
        requires few { AreBelow (2 ^ 58) self }
        ensures value { result ≡ times cores self }
        ensures few { AreBelow (2 ^ 63) result }
    {
        BulkCounts {
            guests: cores * self.guests,
            cores: cores * self.cores,
            budgets: cores * self.budgets,
            jobs: cores * self.jobs,
            missed: cores * self.missed,
            pending: cores * self.pending,
        }
    }

    /// What is counted of two hosts together.
    fn plus(self, other: BulkCounts) -> BulkCounts
        requires few { AreBelow (2 ^ 63) self }
        requires other { AreBelow (2 ^ 63) other }
        ensures { result ≡ plus self other }
    {
        BulkCounts {
            guests: self.guests + other.guests,
            cores: self.cores + other.cores,
            budgets: self.budgets + other.budgets,
            jobs: self.jobs + other.jobs,
            missed: self.missed + other.missed,
            pending: self.pending + other.pending,
        }
    }
}

/// What is counted of the host of `n` guests, 1 to 256, in 100,000 slots. Its full cores run alike,
/// so one of them is run, and beside it the core that is not full.
pub fn bulk_counts(alloc: Global, n: u64) -> Result<BulkCounts, AllocError>
    requires some { 1 ≤ n }
    requires most { n ≤ 256 }
    ensures { IfOk result (λ counts. AreBulkCounts n counts) }
{
    if n < 8 {
        return host_counts(alloc, n);
    }
    let full = host_counts(alloc, 8)?.times(n / 8);
    if n % 8 == 0 {
        return Ok(full);
    }
    let rest = host_counts(alloc, n % 8)?;
    Ok(full.plus(rest))
}

/// What is counted of the host of `n` guests, of which every core is run.
fn host_counts(alloc: Global, n: u64) -> Result<BulkCounts, AllocError>
    requires some { 1 ≤ n }
    requires most { n ≤ 256 }
    ensures counts { IfOk result (λ counts. AreHostCounts n counts) }
    ensures few { IfOk result (λ counts. AreBelow (2 ^ 58) counts) }
{
    let sys = make_bulk(alloc, n)?;
    let plan = plan_of(alloc, &sys, n)?;
    let jobs = bulk_jobs(alloc, &sys, SLOTS)?;
    let tree = run_of_host(alloc, &sys, &plan, &jobs, n)?;
    let counts = count_run(alloc, &sys, &plan, &jobs, &tree, n)?;
    Ok(counts)
}

/// What is counted of a generated host, its budgets, its jobs and its run.
fn count_run(
    alloc: Global,
    sys: &System,
    plan: &Plan,
    jobs: &[Vec<Job>],
    tree: &TreeSpans,
    n: u64,
) -> Result<BulkCounts, AllocError>
    requires some { 1 ≤ n }
    requires most { n ≤ 256 }
    requires host { sys.now ≡ bulk_host n }
    requires plan { plan.now ≡ bulk_budgets n }
    requires jobs { map (λ list. list.items) jobs.now ≡ jobs_of_host n }
    requires tree { AreTreeSpans (bulk_host n) (bulk_budgets n) bulk_slots (bulk_supplies n)
        (jobs_of_host n) tree.now }
    ensures counts { IfOk result (λ counts. counts ≡ counts_in n (bulk_budgets n)
        (runs_of tree.now.cores) (runs_of tree.now.parts)) }
    ensures few { IfOk result (λ counts. AreBelow (2 ^ 58) counts) }
{
    let pinned = sys.cores();
    let guests = tree.parts();
    let budgets = sum_of(plan.budgets());
    let number = number_of_jobs(jobs);
    let at_cores = misses_of(tree.cores());
    let at_parts = misses_of(guests);
    let pending = pending_of(alloc, jobs, guests)?;
    Ok(BulkCounts {
        guests: n,
        cores: pinned.len() as u64,
        budgets,
        jobs: number,
        missed: at_cores + at_parts,
        pending,
    })
}

/// The budgets of a generated host, which is never refused.
fn plan_of(alloc: Global, sys: &System, n: u64) -> Result<Plan, AllocError>
    requires some { 1 ≤ n }
    requires most { n ≤ 256 }
    requires host { sys.now ≡ bulk_host n }
    ensures { IfOk result (λ plan. plan ≡ bulk_budgets n) }
{
    match compose(alloc, sys) {
        Ok(plan) => Ok(plan),
        // no node refuses, so memory ran out
        Err(_) => Err(AllocError),
    }
}

/// The one first run of a generated host.
fn run_of_host(
    alloc: Global,
    sys: &System,
    plan: &Plan,
    jobs: &[Vec<Job>],
    n: u64,
) -> Result<TreeSpans, AllocError>
    requires some { 1 ≤ n }
    requires most { n ≤ 256 }
    requires host { sys.now ≡ bulk_host n }
    requires plan { plan.now ≡ bulk_budgets n }
    requires jobs { map (λ list. list.items) jobs.now ≡ jobs_of_host n }
    ensures { IfOk result (λ tree. AreTreeSpans (bulk_host n) (bulk_budgets n) bulk_slots
        (bulk_supplies n) (jobs_of_host n) tree) }
{
    let given = core_supplies(alloc, sys, Pattern::Early, SLOTS)?;
    let tree = span_tree(alloc, sys, plan, jobs, &given, SLOTS)?;
    Ok(tree)
}

fn sum_of(budgets: &[u64]) -> u64
    requires { sum budgets.now < 2 ^ 64 }
    ensures { result ≡ sum budgets.now }
{
    budgets.iter().sum()
}

fn number_of_jobs(jobs: &[Vec<Job>]) -> u64
    requires { sum_by (λ list. length list.items) jobs.now < 2 ^ 64 }
    ensures { result ≡ sum_by (λ list. length list.items) jobs.now }
{
    jobs.iter().map(|list| list.len() as u64).sum()
}

/// The jobs that miss at some nodes, in sum.
fn misses_of(nodes: &[NodeSpans]) -> u64
    requires few { sum_by (λ node. node.counts.missed) nodes.now < 2 ^ 48 }
    ensures sum { result ≡ sum_by (λ node. node.counts.missed) nodes.now }
    ensures few { result < 2 ^ 48 }
{
    nodes.iter().map(|node| node.counts().missed).sum()
}

/// The pairs of a guest's job and a slot at which the job is pending, in sum.
fn pending_of(alloc: Global, jobs: &[Vec<Job>], nodes: &[NodeSpans]) -> Result<u64, AllocError>
    requires few { length jobs.now ≤ 512 }
    requires runs { AreGuestRuns (map (λ list. list.items) jobs.now) nodes.now }
    ensures counted { let lists = map (λ list. list.items) jobs.now in
        IfOk result (λ pending. pending ≡ sum_below (λ q.
        pairs_pending (jobs_at lists q) (run_of (node_at nodes.now q).spans)) (length lists)) }
    ensures few { IfOk result (λ pending. pending ≤ length jobs.now * 2 ^ 49) }
{
    let mut pending = 0;
    for place in 0..jobs.len() {
        pending += pending_in(alloc, &jobs[place], &nodes[place])?;
    }
    Ok(pending)
}

/// The same at one guest.
fn pending_in(alloc: Global, jobs: &[Job], node: &NodeSpans) -> Result<u64, AllocError>
    requires run { IsGuestRun jobs.now node.now.spans }
    ensures number { IfOk result (λ n. n ≡ pairs_pending jobs.now (run_of node.now.spans)) }
    ensures few { IfOk result (λ n. n ≤ 2 ^ 32 * 100000) }
{
    count_pending(alloc, jobs, node.spans(), SLOTS)
}
