ghost use Rattle.std.specs.Prelude.{◌≡◌, ◌++◌, codes, IfOk, OnOk, string_bytes, length};
ghost use Rattle.rt_report.specs.Refusal.{IsRefusalOf};
ghost use Rattle.rt_report.specs.Session.{answer_line, answer_words, denied_words, fault_word, plan_lines, IsToldAnswer};

use crate::admit::push_part;
use crate::names;
use crate::refusal::push_short;
use admission_session::{Answer, EditFault};
use std::alloc::{AllocError, Global};
use tree_model::{Plan, Refusal, System};

/// The front of the text of a session: the verdict.
pub fn session_begun(alloc: Global) -> Result<String, AllocError>
    ensures { IfOk result (λ text. string_bytes text ≡ codes "verdict=yes\n") }
{
    String::from_str(alloc, "verdict=yes\n")
}

/// Writes the line of the answer to row `number` of a session, counted from 1.
pub fn push_answer(text: &mut String, number: u64, answer: &Answer) -> Result<(), AllocError>
    requires { IsToldAnswer answer.now }
    ensures { OnOk result
        (string_bytes text.new ≡ string_bytes text.old ++ answer_line number answer.now) }
{
    write!(text, "{number} ")?;
    push_words(text, answer)?;
    text.push_str("\n")
}

fn push_words(text: &mut String, answer: &Answer) -> Result<(), AllocError>
    requires { IsToldAnswer answer.now }
    ensures { OnOk result
        (string_bytes text.new ≡ string_bytes text.old ++ answer_words answer.now) }
{
    match answer {
        Answer::Done => text.push_str("yes"),
        Answer::Refused(fault) => {
            text.push_str("refused ")?;
            text.push_str(fault_word(*fault))
        }
        Answer::Denied { system, refusal } => push_denied(text, system, *refusal),
    }
}

fn fault_word(fault: EditFault) -> &'static str
    ensures { result.now ≡ fault_word fault }
{
    match fault {
        EditFault::NameTaken => "NameTaken",
        EditFault::NoSuchParent => "NoSuchParent",
        EditFault::Mixed => "Mixed",
        EditFault::NoSuchLeaf => "NoSuchLeaf",
        EditFault::LastChild => "LastChild",
        EditFault::BadPart => "BadPart",
        EditFault::TooMany => "TooMany",
    }
}

fn push_denied(text: &mut String, sys: &System, refusal: Refusal) -> Result<(), AllocError>
    requires { IsRefusalOf sys.now refusal }
    ensures { OnOk result
        (string_bytes text.new ≡ string_bytes text.old ++ denied_words sys.now refusal) }
{
    match refusal {
        Refusal::Overfull(node, short) => {
            text.push_str("overfull ")?;
            names::push_node(text, sys, node)?;
            push_short(text, sys, node, short)
        }
        Refusal::Wide(node) => {
            text.push_str("wide ")?;
            names::push_node(text, sys, node)
        }
        Refusal::NoMemory => unreachable!(),
    }
}

/// The whole text of a session, of what is written up to its last answer: then a line a part.
pub fn session_text(told: String, sys: &System, plan: &Plan) -> Result<Vec<u8>, AllocError>
    requires { length plan.now ≡ length sys.now.parts }
    ensures { IfOk result
        (λ text. text.items ≡ string_bytes told ++ plan_lines sys.now.parts plan.now) }
{
    let mut text = told;
    let budgets = plan.budgets();
    for (q, part) in sys.parts().iter().enumerate() {
        push_part(&mut text, part, budgets[q])?;
    }
    Ok(text.into_bytes())
}
