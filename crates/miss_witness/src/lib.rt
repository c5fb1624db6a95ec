//! Why the next smaller budget of a leaf does not do: a supply and a release that defeat it, and
//! what is seen when that release is run.
#![tactic(auto)]

mod defeat;
mod due_last;
mod jobs;
mod replay;
mod replays;
mod witnesses;

pub use defeat::Defeat;
pub use jobs::witness_jobs;
pub use replay::Replay;
pub use replays::replay_all;
pub use witnesses::witness;
