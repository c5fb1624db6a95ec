ghost use Rattle.std.specs.Prelude.{◌≡◌, length, IfOk};
ghost use Rattle.tree_model.specs.Plans.{IsPlan};
ghost use Rattle.rt_report.specs.Steal.{steal_finding_text, steal_text, IsStealOfPart};

use crate::audit::{period_line, times_of, yes_text};
use crate::vcpu_lines::{VcpuCounts, push_lines, push_time};
use auditor::{StealFinding, StealTally, Stolen};
use std::alloc::{AllocError, Global};
use tree_model::{Plan, System};

/// The text of what is stolen: yes and how many periods are kept, or the denied period that begins
/// first; and then a line for each part that stands on a core, in the order of the file. Its
/// moments and times are in nanoseconds.
pub fn steal_text(
    alloc: Global,
    sys: &System,
    plan: &Plan,
    stolen: &Stolen,
) -> Result<Vec<u8>, AllocError>
    requires plan { IsPlan sys.now plan.now }
    requires part { IsStealOfPart sys.now stolen.now.finding }
    requires each_part { length stolen.now.vcpus.items ≡ length sys.now.parts }
    ensures { IfOk result (λ text. text.items
        ≡ steal_text sys.now plan.now stolen.now.finding stolen.now.vcpus.items) }
{
    let mut lines = String::new(alloc);
    push_lines(&mut lines, sys, &stolen.vcpus)?;
    let mut text = finding_text(alloc, sys, plan, stolen.finding)?;
    text.extend_from_slice(lines.as_bytes())?;
    Ok(text)
}

fn finding_text(
    alloc: Global,
    sys: &System,
    plan: &Plan,
    finding: StealFinding,
) -> Result<Vec<u8>, AllocError>
    requires plan { IsPlan sys.now plan.now }
    requires part { IsStealOfPart sys.now finding }
    ensures { IfOk result (λ text. text.items ≡ steal_finding_text sys.now plan.now finding) }
{
    match finding {
        StealFinding::Yes { periods } => yes_text(alloc, periods),
        StealFinding::Denied { vcpu, from, stolen } => {
            let (period, budget) = times_of(sys, plan, vcpu);
            let of = period - budget;
            period_line(alloc, "verdict=no\nstolen", sys, vcpu, from, stolen, of)
        }
    }
}

impl VcpuCounts for StealTally {
    ghost use Rattle.rt_report.specs.Steal.{steal_words};

    ghost words = { steal_words };

    fn push(&self, text: &mut String, name: &str) -> Result<(), AllocError> {
        write!(
            text,
            "vcpu {name} begun={} kept={} denied={} most_ns=",
            self.begun, self.kept, self.denied
        )?;
        push_time(text, self.most)?;
        text.push_str("\n")
    }
}
