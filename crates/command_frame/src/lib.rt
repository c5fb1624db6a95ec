//! What commands share: files that are read, budgets, a leaf by its name, and how a command ends.
#![tactic(auto)]

mod answer;
mod file;
mod leaf;
mod one_file;
mod refusing;
mod second_file;
mod status;
mod two_files;

pub use answer::{Answer, Ending, ended};
pub use file::{bad_file, second_fault};
pub use leaf::{find_leaf, part_at};
pub use one_file::{JudgeOne, over_one};
pub use refusing::{admitted, admitted_edges, assigned, refuse};
pub use second_file::{SecondFault, spelled};
pub use status::Status;
pub use two_files::{JudgePieces, JudgeTwo, over_pieces, over_two};
