//! How far the work of each task of a leaf may grow while its system stays admitted.
#![tactic(auto)]

mod budgets;
mod leaf;
mod works;

pub use leaf::slacks;
