//! The exact test of one task under a fixed priority, over any supply: its least hit, within which
//! each of its jobs is done, or none, where the worst pattern of the supply makes a job late; and
//! the windows that show that there is none.
#![tactic(auto)]

mod fall;
mod hits;

pub use fall::{falls, falls_of};
pub use hits::{hit, hit_in, hit_of, is_hit};
