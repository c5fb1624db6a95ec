ghost use Rattle.std.specs.Prelude.{◌≡◌, ◌++◌, ◌<◌, OnOk, string_bytes};
ghost use Rattle.tree_model.specs.declared.place.Place.TheVariants.{Core, Part};
ghost use Rattle.rt_report.specs.Words.{node_words, child_name, served_name, task_name};
ghost use Rattle.rt_report.specs.Responses.{part_name, task_name_at};
ghost use Rattle.tree_model.specs.Tree.{IsNode};

use std::alloc::AllocError;
use tree_model::{Part, Place, System};

/// Writes the kind and the name of a node.
pub fn push_node(text: &mut String, sys: &System, node: Place) -> Result<(), AllocError>
    requires { IsNode sys.now node }
    ensures { OnOk result
        (string_bytes text.new ≡ string_bytes text.old ++ node_words sys.now node) }
{
    match node {
        Place::Core(c) => {
            text.push_str("core ")?;
            text.push_str(sys.cores()[c as usize].name.as_str())
        }
        Place::Part(q) => {
            text.push_str("part ")?;
            text.push_str(sys.parts()[q as usize].name().as_str())
        }
    }
}

/// The name of what a node serves, at a place among its tasks or its children; nothing past the
/// end.
pub fn served(sys: &System, node: Place, i: u32) -> &str
    requires { IsNode sys.now node }
    ensures { result.now ≡ served_name sys.now node i }
{
    match node {
        Place::Part(q) => {
            let part = &sys.parts()[q as usize];
            if part.is_leaf() {
                task(part, i)
            } else {
                child(sys, node, i)
            }
        }
        Place::Core(_) => child(sys, node, i),
    }
}

/// The name of a task of a leaf; nothing past the end.
pub fn task(part: &Part, i: u32) -> &str
    ensures { result.now ≡ task_name part.now i }
{
    match part.tasks().get(i as usize) {
        Some(named) => named.name().as_str(),
        None => "",
    }
}

/// The name of the part at a place; nothing past the end.
pub fn part(sys: &System, q: u32) -> &str
    ensures { result.now ≡ part_name sys.now q }
{
    match sys.parts().get(q as usize) {
        Some(part) => part.name().as_str(),
        None => "",
    }
}

/// The name of a task of the part at a place; nothing past the end.
pub fn task_at(sys: &System, q: u32, i: u32) -> &str
    ensures { result.now ≡ task_name_at sys.now q i }
{
    match sys.parts().get(q as usize) {
        Some(part) => task(part, i),
        None => "",
    }
}

// The name of a child of a node; nothing past the end.
fn child(sys: &System, node: Place, i: u32) -> &str
    ensures { result.now ≡ child_name sys.now node i }
{
    let mut before = i;
    for part in sys.parts() {
        if part.is_child_of(node) {
            if before == 0 {
                return part.name().as_str();
            }
            before -= 1;
        }
    }
    ""
}
