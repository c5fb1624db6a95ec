ghost use Rattle.std.specs.Prelude.{◌≡◌, ◌++◌, length, IfOk, OnOk, string_bytes};
ghost use Rattle.tree_model.specs.Plans.{IsPlan};
ghost use Rattle.rt_report.specs.Audit.{IsFindingOf};
ghost use Rattle.rt_report.specs.Tally.{counts_words, tally_text};

use crate::audit::audit_text;
use crate::vcpu_lines::{VcpuCounts, push_lines, push_time};
use auditor::{Tallied, Tally};
use std::alloc::{AllocError, Global};
use tree_model::{Plan, System};

/// The text of a tally: that of the audit, and then a line for each part that stands on a core, in
/// the order of the file. Its times are in nanoseconds.
pub fn tally_text(
    alloc: Global,
    sys: &System,
    plan: &Plan,
    tallied: &Tallied,
) -> Result<Vec<u8>, AllocError>
    requires plan { IsPlan sys.now plan.now }
    requires part { IsFindingOf sys.now tallied.now.finding }
    requires each_part { length tallied.now.vcpus.items ≡ length sys.now.parts }
    ensures { IfOk result (λ text. text.items
        ≡ tally_text sys.now plan.now tallied.now.finding tallied.now.vcpus.items) }
{
    let mut lines = String::new(alloc);
    push_lines(&mut lines, sys, &tallied.vcpus)?;
    let mut text = audit_text(alloc, sys, plan, &tallied.finding)?;
    text.extend_from_slice(lines.as_bytes())?;
    Ok(text)
}

impl VcpuCounts for Tally {
    ghost use Rattle.rt_report.specs.Tally.{tally_words};

    ghost words = { tally_words };

    fn push(&self, text: &mut String, name: &str) -> Result<(), AllocError> {
        write!(text, "vcpu {name}")?;
        push_counts(text, self)?;
        text.push_str(" least_ns=")?;
        push_time(text, self.least)?;
        text.push_str(" most_ns=")?;
        push_time(text, self.most)?;
        text.push_str("\n")
    }
}

fn push_counts(text: &mut String, tally: &Tally) -> Result<(), AllocError>
    ensures { OnOk result (
        string_bytes text.new ≡ string_bytes text.old ++ counts_words tally.now) }
{
    write!(
        text,
        " begun={} judged={} short={} over={}",
        tally.begun, tally.judged, tally.short, tally.over
    )
}
