//! The schedule of servers: a level of them, each of which releases its budget once a period and is
//! given up at its deadline moment, and a whole tree slot by slot, or its counts alone.
#![tactic(auto)]

mod counted_tree;
mod level;
mod served;
mod servers;
mod serving;
mod slot_counts;
mod slots;
mod supplies;
mod tally;

pub use counted_tree::count_tree;
pub use servers::{run_servers, server_jobs};
pub use slot_counts::count_run;
pub use slots::run_tree;
pub use supplies::{Pattern, core_supplies};
pub use tree_spans::{NodeSpans, TreeCounts, TreeSpans, span_tree};
