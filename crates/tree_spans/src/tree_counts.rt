ghost use Rattle.std.specs.Prelude.{◌≡◌};
ghost use Rattle.tree_spans.specs.TreeCounts.{none_missed, no_node_misses};

use span_counts::Counts;
use std::marker::Model;

/// What is counted of the run of each core and of each part, in file order.
#[derive(Drop, Debug)]
pub struct TreeCounts {
    pub cores: Vec<Counts>,
    pub parts: Vec<Counts>,
}

impl Model for TreeCounts {
    ghost use Rattle.tree_spans.specs.TreeCounts.{CountsView};

    ghost Value = { CountsView };

    ghost view = { λ t. record { cores = t.cores.items; parts = t.parts.items } };
}

impl TreeCounts {
    /// Of each core, in file order.
    pub fn cores(&self) -> &[Counts]
        ensures { result.now ≡ self.now.cores }
    {
        &self.cores
    }

    /// Of each part, in file order.
    pub fn parts(&self) -> &[Counts]
        ensures { result.now ≡ self.now.parts }
    {
        &self.parts
    }

    /// Whether no node has a miss.
    pub fn is_kept(&self) -> bool
        ensures { result ≡ no_node_misses self.now }
    {
        none_missed(self.cores()) && none_missed(self.parts())
    }
}

fn none_missed(counts: &[Counts]) -> bool
    ensures { result ≡ none_missed counts.now }
{
    counts.iter().all(|node| node.missed == 0)
}
