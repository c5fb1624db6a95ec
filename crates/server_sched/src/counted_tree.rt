ghost use Rattle.std.specs.Prelude.{◌≡◌, ℕ, ◌^◌, ◌<◌, map, IfOk};
ghost use Rattle.tree_model.specs.Plans.{IsPlan};
ghost use Rattle.tree_model.specs.Releases.{AreReleases};
ghost use Rattle.tree_spans.specs.TreeSpans.{AreSupplies, AreFewJobs, supplies_of};
ghost use Rattle.server_sched.specs.CountedTree.{AreFirstCounts};

use crate::level::MOST_ROOM;
use crate::served::serve_level;
use guest_sched::{Keep, ReleasedLevel, Window};
use slot_model::{Job, Sched, Task};
use span_counts::{Counts, counts_by};
use std::alloc::{AllocError, Global};
use std::marker::Model;
use tree_model::{Plan, System};
use tree_spans::{KeptNode, KeptTree, TreeCounts, counts_kept, walk_tree};

/// What is kept of the run of a node once it is counted: the windows that each child gets of it,
/// one list a child in file order, and its counts.
#[derive(Drop)]
pub struct Kept {
    pub shares: Vec<Vec<Window>>,
    pub counts: Counts,
}

impl Model for Kept {
    ghost use Rattle.std.specs.Prelude.{map};
    ghost use Rattle.server_sched.specs.inner.Kept.{KeptView};

    ghost Value = { KeptView };

    ghost view = { λ k. record { shares = map (λ s. s.items) k.shares.items; counts = k.counts } };
}

/// It keeps no run and no span of one, and the windows of a child until that has run.
impl KeptNode for Kept {
    ghost use Rattle.std.specs.Prelude.{◌^◌, ◌<◌};
    ghost use Rattle.server_sched.specs.inner.Kept.{IsStillKept};

    ghost takes = { λ slots. slots < 2 ^ 63 };

    ghost is_kept_of = { IsStillKept };

    fn of_servers(
        alloc: Global,
        sched: Sched,
        tasks: &[Task],
        given: &[Window],
        slots: u64,
    ) -> Result<Kept, AllocError> {
        let kept = serve_level(alloc, sched, tasks, given, slots)?;
        Ok(kept)
    }

    fn of_guests(
        alloc: Global,
        sched: Sched,
        tasks: &[Task],
        jobs: &[Job],
        given: &[Window],
        slots: u64,
    ) -> Result<Kept, AllocError> {
        let level = ReleasedLevel {
            keep: Keep::UntilDone,
            tasks,
            jobs,
            given,
            slots,
        };
        let counts = counts_by(alloc, &level, sched)?;
        Ok(Kept {
            shares: Vec::new(alloc),
            counts,
        })
    }

    fn share(&self, k: usize) -> &[Window] {
        &self.shares[k]
    }

    fn let_go(&mut self, alloc: Global, k: usize) {
        self.shares[k] = Vec::new(alloc);
    }

    fn counts(&self) -> Counts {
        self.counts
    }
}

/// What is counted of the one first run of the tree over `slots` slots, of which each core has
/// those of its windows. No run is kept, and no windows once their part has run: its memory is that
/// of one leaf's jobs and of the windows of the parts that are still to run.
pub fn count_tree(
    alloc: Global,
    sys: &System,
    plan: &Plan,
    jobs: &[Vec<Job>],
    given: &[Vec<Window>],
    slots: u64,
) -> Result<TreeCounts, AllocError>
    requires plan { IsPlan sys.now plan.now }
    requires jobs { AreReleases sys.now (map (λ j. j.items) jobs.now) }
    requires windows { AreSupplies sys.now slots (map (λ g. g.items) given.now) }
    requires few { AreFewJobs sys.now plan.now slots (map (λ j. j.items) jobs.now) }
    requires short { slots < 2 ^ 63 }
    ensures { let supplies = supplies_of (map (λ g. g.items) given.now) slots in
        IfOk result (λ counts. AreFirstCounts sys.now plan.now slots supplies
        (map (λ j. j.items) jobs.now) counts) }
{
    // The C library keeps what is let go for the next list where it is no larger than a block that
    // was let go before; what is larger it has anew each time, page by page.
    drop(Vec::<Window>::with_capacity(alloc, MOST_ROOM as usize));
    let tree: KeptTree<Kept> = walk_tree(alloc, sys, plan, jobs, given, slots)?;
    let cores = counts_kept(alloc, &tree.cores)?;
    let parts = counts_kept(alloc, &tree.parts)?;
    Ok(TreeCounts { cores, parts })
}
