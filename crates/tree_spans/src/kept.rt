ghost use Rattle.std.specs.Prelude.{◌≡◌, ℕ, ◌+◌, ◌^◌, ◌<◌, List, length, IfOk};
ghost use Rattle.guest_sched.specs.Spans.{AreWindows};
ghost use Rattle.slot_model.specs.Task.{sporadic_tasks};
ghost use Rattle.slot_model.specs.Release.{LegalRelease, synchronous};
ghost use Rattle.tree_spans.specs.Shares.{share_at};
ghost use Rattle.tree_spans.specs.NodeView.{NodeView, counts_of};
ghost use Rattle.tree_spans.specs.Levels.{AreServers, IsServerLevel, IsGuestLevel};
ghost use Rattle.tree_spans.specs.KeptNodes.{IsKeptOf, AreKept};

use guest_sched::Window;
use slot_model::{Job, Sched, Task};
use span_counts::Counts;
use std::alloc::{AllocError, Global};

/// What a walk over a tree keeps of the run of a node. Its children run after it, in file order,
/// each over the windows that are kept for it.
pub trait KeptNode: Drop {
    /// The numbers of slots over which a level can run.
    ghost takes: { ℕ → Type 0 };

    /// The first is kept of this run of a node, of whose children so many have run.
    ghost is_kept_of: { Self → NodeView → ℕ → Type 0 };

    /// Runs a level of servers over the slots of windows.
    fn of_servers(
        alloc: Global,
        sched: Sched,
        tasks: &[Task],
        given: &[Window],
        slots: u64,
    ) -> Result<Self, AllocError>
        requires servers { AreServers (sporadic_tasks tasks.now) }
        requires few_tasks { length tasks.now < 2 ^ 32 }
        requires few { length (synchronous (sporadic_tasks tasks.now) 0 slots) < 2 ^ 32 }
        requires windows { AreWindows given.now slots }
        requires takes { takes slots }
        ensures { IfOk result (λ kept. IsKeptOf is_kept_of
            (IsServerLevel sched (sporadic_tasks tasks.now) given.now slots) kept) };

    /// Runs the jobs of a leaf over the slots of windows.
    fn of_guests(
        alloc: Global,
        sched: Sched,
        tasks: &[Task],
        jobs: &[Job],
        given: &[Window],
        slots: u64,
    ) -> Result<Self, AllocError>
        requires legal { LegalRelease (sporadic_tasks tasks.now) jobs.now }
        requires few { length jobs.now < 2 ^ 32 }
        requires windows { AreWindows given.now slots }
        ensures { IfOk result (λ kept. IsKeptOf is_kept_of
            (IsGuestLevel sched (sporadic_tasks tasks.now) jobs.now given.now slots) kept) };

    /// The windows of the next child to run.
    fn share(&self, k: usize) -> &[Window]
        requires { (node : NodeView) × is_kept_of self.now node k × (k < length node.shares) }
        ensures { (node : NodeView) → is_kept_of self.now node k → k < length node.shares →
            result.now ≡ share_at node.shares k };

    /// The next child, child `k`, has run: its windows are asked for no more.
    fn let_go(&mut self, alloc: Global, k: usize)
        requires { (node : NodeView) × is_kept_of self.old node k × (k < length node.shares) }
        ensures { (node : NodeView) → is_kept_of self.old node k →
            is_kept_of self.new node (k + 1) };

    /// What is counted of the run.
    fn counts(&self) -> Counts
        ensures { (node : NodeView) (k : ℕ) → is_kept_of self.now node k →
            result ≡ node.counts };
}

/// What is counted of each run of a list.
pub fn counts_kept<K: KeptNode>(alloc: Global, kept: &[K]) -> Result<Vec<Counts>, AllocError>
    ensures { (nodes : List NodeView) (ran : ℕ → ℕ) → AreKept K.is_kept_of ran kept.now nodes →
        IfOk result (λ counts. counts.items ≡ counts_of nodes) }
{
    let mut counts = Vec::with_capacity(alloc, kept.len())?;
    for one in kept {
        counts.push(one.counts())?;
    }
    Ok(counts)
}
