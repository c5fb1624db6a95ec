use crate::Leaf;
use slot_model::Name;

/// An edit of a system: a leaf is added on the parent of a name, the leaf of a name is taken out,
/// or a leaf takes the place of the one of its name.
#[derive(Drop, Debug)]
pub enum Edit {
    Add { leaf: Leaf, parent: Option<Name> },
    Remove(Name),
    Change(Leaf),
}
