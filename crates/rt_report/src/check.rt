ghost use Rattle.std.specs.Prelude.{◌≡◌, ◌++◌, IfOk, IfErr, OnOk, string_bytes};
ghost use Rattle.rt_report.specs.Check.{check_text, flaw_words, IsFlawOf};

use crate::names::push_node;
use cert_verify::Flaw;
use std::alloc::{AllocError, Global};
use tree_model::System;

/// The text of a certificate's verdict: that it proves the system, or its first flaw.
pub fn check_text(alloc: Global, sys: &System, v: &Result<(), Flaw>) -> Result<Vec<u8>, AllocError>
    requires { IfErr v.now (λ flaw. IsFlawOf sys.now flaw) }
    ensures { IfOk result (λ text. text.items ≡ check_text sys.now v.now) }
{
    match *v {
        Ok(()) => "verdict=yes\n".as_bytes().to_vec(alloc),
        Err(flaw) => {
            let mut text = String::from_str(alloc, "verdict=no\nflaw=")?;
            push_flaw(&mut text, sys, flaw)?;
            text.push_str("\n")?;
            Ok(text.into_bytes())
        }
    }
}

fn push_flaw(text: &mut String, sys: &System, flaw: Flaw) -> Result<(), AllocError>
    requires { IsFlawOf sys.now flaw }
    ensures { OnOk result
        (string_bytes text.new ≡ string_bytes text.old ++ flaw_words sys.now flaw) }
{
    let (word, node) = match flaw {
        Flaw::Nodes => return text.push_str("Nodes"),
        Flaw::Budget(node) => ("Budget ", node),
        Flaw::Cover(node) => ("Cover ", node),
        Flaw::Hit(node, _) => ("Hit ", node),
        Flaw::Least(node) => ("Least ", node),
        Flaw::Wide(node) => ("Wide ", node),
    };
    text.push_str(word)?;
    push_node(text, sys, node)?;
    match flaw {
        Flaw::Hit(_, i) => write!(text, " task={}", i as u64 + 1),
        _ => Ok(()),
    }
}
