//! The run of a whole tree as spans: a core and an inner part run the servers of their children, a
//! leaf runs its jobs, and a child's slots are those at which its parent's run holds one of its
//! jobs.
#![tactic(auto)]

mod kept;
mod node;
mod shares;
mod tree;
mod tree_counts;
mod walk;

pub use kept::{KeptNode, counts_kept};
pub use node::{NodeSpans, TreeSpans};
pub use tree::span_tree;
pub use tree_counts::TreeCounts;
pub use walk::{KeptTree, rank_of, room_for_tasks, walk_tree};
