ghost use Rattle.std.specs.Prelude.{◌≡◌, ◌++◌, IfOk, OnOk, string_bytes};
ghost use Rattle.tree_model.specs.Tree.{IsNode};
ghost use Rattle.rt_report.specs.Refusal.{short_words, refusal_text, IsRefusalOf};

use crate::names;
use slot_model::Short;
use std::alloc::{AllocError, Global};
use tree_model::{Place, Refusal, System};

/// The text of a refusal: the verdict, and the node with what is short there.
pub fn refusal_text(alloc: Global, sys: &System, r: &Refusal) -> Result<Vec<u8>, AllocError>
    requires { IsRefusalOf sys.now r.now }
    ensures { IfOk result (λ text. text.items ≡ refusal_text sys.now r.now) }
{
    let mut text = String::new(alloc);
    match *r {
        Refusal::Overfull(node, short) => {
            text.push_str("verdict=no\noverfull ")?;
            names::push_node(&mut text, sys, node)?;
            push_short(&mut text, sys, node, short)?;
            text.push_str("\n")?;
        }
        Refusal::Wide(node) => {
            text.push_str("verdict=wide\nwide ")?;
            names::push_node(&mut text, sys, node)?;
            text.push_str("\n")?;
        }
        Refusal::NoMemory => unreachable!(),
    }
    Ok(text.into_bytes())
}

/// Writes what is short at a node.
pub fn push_short(
    text: &mut String,
    sys: &System,
    node: Place,
    short: Short,
) -> Result<(), AllocError>
    requires { IsNode sys.now node }
    ensures { OnOk result (
        string_bytes text.new ≡ string_bytes text.old ++ short_words sys.now node short) }
{
    match short {
        Short::At(t) => write!(text, " at={t}"),
        Short::Task(i) => {
            text.push_str(" task=")?;
            text.push_str(names::served(sys, node, i))
        }
    }
}
