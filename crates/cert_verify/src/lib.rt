//! When a certificate of admission proves a system, and the first flaw of one that does not.
#![tactic(auto)]

mod claims;
mod flaw;
mod nodes;
mod points;

pub use flaw::Flaw;
pub use nodes::verify;
