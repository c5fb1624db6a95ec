//! Fixed priorities: which task ranks above which, the order of jobs that a rank gives, and the
//! request bound of a task (how many slots the task and all that rank above it may ask for).
//! All numbers are slots.
#![tactic(auto)]

mod by_terms;
mod exchange;
mod fixed;
mod rank;
mod ranked;
mod request_bound;

pub use exchange::{rank_all, set_ranked};
pub use fixed::Fixed;
pub use rank::{higher, room_at};
pub use ranked::{RankedLevel, RankedTask};
pub use request_bound::request;
