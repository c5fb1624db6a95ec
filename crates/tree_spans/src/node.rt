ghost use Rattle.std.specs.Prelude.{◌≡◌, IfOk};
ghost use Rattle.tree_spans.specs.NodeView.{counts_of};

use crate::TreeCounts;
use crate::kept::{KeptNode, counts_kept};
use crate::shares::shares_of;
use guest_sched::{Keep, ReleasedLevel, Span, Window, spans_by};
use release_pattern::synchronous_jobs;
use slot_model::{Job, Sched, Task};
use span_counts::{Counts, count_level};
use std::alloc::{AllocError, Global};
use std::marker::Model;

/// The run of a node as spans, what is counted of it, and at a core or an inner part the windows
/// that each child gets of it, one list a child in file order.
#[derive(Drop, Debug)]
pub struct NodeSpans {
    pub spans: Vec<Span>,
    pub shares: Vec<Vec<Window>>,
    pub counts: Counts,
}

impl Model for NodeSpans {
    ghost use Rattle.std.specs.Prelude.{map};
    ghost use Rattle.tree_spans.specs.NodeView.{NodeView};

    ghost Value = { NodeView };

    ghost view = { λ n. record {
      spans = n.spans.items;
      shares = map (λ s. s.items) n.shares.items;
      counts = n.counts;
    } };
}

impl NodeSpans {
    /// The run: its spans, one after the other.
    pub fn spans(&self) -> &[Span]
        ensures { result.now ≡ self.now.spans }
    {
        &self.spans
    }

    /// What is counted of the run.
    pub fn counts(&self) -> Counts
        ensures { result ≡ self.now.counts }
    {
        self.counts
    }
}

/// It keeps all of the run, and the windows of each child.
impl KeptNode for NodeSpans {
    ghost use Rattle.std.specs.Prelude.{◌≡◌, ⊤};

    ghost takes = { λ _. ⊤ };

    ghost is_kept_of = { λ one node _. one ≡ node };

    fn of_servers(
        alloc: Global,
        sched: Sched,
        tasks: &[Task],
        given: &[Window],
        slots: u64,
    ) -> Result<NodeSpans, AllocError> {
        let jobs = synchronous_jobs(alloc, tasks, 0, slots)?;
        let level = ReleasedLevel {
            keep: Keep::UntilDeadline,
            tasks,
            jobs: &jobs,
            given,
            slots,
        };
        let spans = spans_by(alloc, &level, sched)?;
        let shares = shares_of(alloc, tasks, &jobs, &spans)?;
        let counts = count_level(alloc, tasks, &jobs, given, &spans, slots)?;
        Ok(NodeSpans {
            spans,
            shares,
            counts,
        })
    }

    fn of_guests(
        alloc: Global,
        sched: Sched,
        tasks: &[Task],
        jobs: &[Job],
        given: &[Window],
        slots: u64,
    ) -> Result<NodeSpans, AllocError> {
        let level = ReleasedLevel {
            keep: Keep::UntilDone,
            tasks,
            jobs,
            given,
            slots,
        };
        let spans = spans_by(alloc, &level, sched)?;
        let counts = count_level(alloc, tasks, jobs, given, &spans, slots)?;
        Ok(NodeSpans {
            spans,
            shares: Vec::new(alloc),
            counts,
        })
    }

    fn share(&self, k: usize) -> &[Window] {
        &self.shares[k]
    }

    fn let_go(&mut self, _alloc: Global, _k: usize) {}

    fn counts(&self) -> Counts {
        self.counts
    }
}

/// The run of a tree as spans: a node for each core and one for each part, in file order.
#[derive(Drop, Debug)]
pub struct TreeSpans {
    pub cores: Vec<NodeSpans>,
    pub parts: Vec<NodeSpans>,
}

impl Model for TreeSpans {
    ghost use Rattle.tree_spans.specs.NodeView.{TreeView};

    ghost Value = { TreeView };

    ghost view = { λ t. record { cores = t.cores.items; parts = t.parts.items } };
}

impl TreeSpans {
    /// The runs of the cores, in file order.
    pub fn cores(&self) -> &[NodeSpans]
        ensures { result.now ≡ self.now.cores }
    {
        &self.cores
    }

    /// The runs of the parts, in file order.
    pub fn parts(&self) -> &[NodeSpans]
        ensures { result.now ≡ self.now.parts }
    {
        &self.parts
    }
    /// What is counted of each run.
    pub fn counts(&self, alloc: Global) -> Result<TreeCounts, AllocError>
        ensures cores { IfOk result (λ counts. counts.cores ≡ counts_of self.now.cores) }
        ensures parts { IfOk result (λ counts. counts.parts ≡ counts_of self.now.parts) }
    {
        let cores = counts_kept(alloc, self.cores())?;
        let parts = counts_kept(alloc, self.parts())?;
        Ok(TreeCounts { cores, parts })
    }
}
