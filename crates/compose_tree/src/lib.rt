//! Budgets up the tree of guests: the least ones that pass, or the first node that refuses.
#![tactic(auto)]

mod assignment;
mod budgets;
mod nodes;
mod recomposition;

pub use assignment::assign;
pub use budgets::{Composed, compose, compose_edges};
pub use recomposition::{recompose, resettle_part, retest_core};
