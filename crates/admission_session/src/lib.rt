//! Sessions: an admitted system is edited, one edit after another, and stays admitted.
#![tactic(auto)]

mod answer;
mod copies;
mod cores;
mod edit;
mod edited;
mod fault;
mod find;
mod in_place;
mod leaf;
mod op;
mod plans;
mod row;
mod rules;
mod session;
mod shares;
mod trials;

pub use answer::Answer;
pub use edit::Edit;
pub use edited::copy_system;
pub use fault::EditFault;
pub use leaf::Leaf;
pub use op::Op;
pub use row::Row;
pub use rules::is_new_leaf;
pub use session::Session;
