ghost use Rattle.std.specs.Prelude.{◌≡◌, ◌<◌, ◌≤◌, length, IfOk};
ghost use Rattle.tree_model.specs.Plans.{IsPlan};
ghost use Rattle.trace_file.specs.Periods.{budget_of, period_of};
ghost use Rattle.rt_report.specs.Audit.{audit_text, period_line, yes_text, IsFindingOf};

use auditor::Finding;
use std::alloc::{AllocError, Global};
use tree_model::{Plan, System};

/// The text of an audit: the verdict, and the number of judged periods or the broken period. Its
/// moments, the time that was got and the budget are in nanoseconds.
pub fn audit_text(
    alloc: Global,
    sys: &System,
    plan: &Plan,
    a: &Finding,
) -> Result<Vec<u8>, AllocError>
    requires plan { IsPlan sys.now plan.now }
    requires part { IsFindingOf sys.now a.now }
    ensures { IfOk result (λ text. text.items ≡ audit_text sys.now plan.now a.now) }
{
    match *a {
        Finding::Yes { periods } => yes_text(alloc, periods),
        Finding::Short { vcpu, from, got } => {
            let (_, budget) = times_of(sys, plan, vcpu);
            period_line(alloc, "verdict=no\nshort", sys, vcpu, from, got, budget)
        }
        Finding::Over { vcpu, from, got } => {
            let (_, budget) = times_of(sys, plan, vcpu);
            period_line(alloc, "verdict=no\nover", sys, vcpu, from, got, budget)
        }
    }
}

/// Yes, and how many periods were judged.
pub fn yes_text(alloc: Global, periods: u64) -> Result<Vec<u8>, AllocError>
    ensures { IfOk result (λ text. text.items ≡ yes_text periods) }
{
    Ok(format!(in alloc; "verdict=yes\nperiods={periods}\n")?.into_bytes())
}

/// The period and the budget of a VCPU in nanoseconds.
pub fn times_of(sys: &System, plan: &Plan, vcpu: u32) -> (u64, u64)
    requires plan { IsPlan sys.now plan.now }
    requires part { vcpu < length sys.now.parts }
    ensures period { result.0 ≡ period_of sys.now vcpu }
    ensures budget { result.1 ≡ budget_of plan.now vcpu }
    ensures in_period { result.1 ≤ result.0 }
{
    let period = sys.parts()[vcpu as usize].period() * 1000;
    (period, plan.budgets()[vcpu as usize] * 1000)
}

/// A period, with the time that was got in it and the time against which that is held.
pub fn period_line(
    alloc: Global,
    word: &str,
    sys: &System,
    vcpu: u32,
    from: u64,
    got: u64,
    of: u64,
) -> Result<Vec<u8>, AllocError>
    requires { vcpu < length sys.now.parts }
    ensures { IfOk result
        (λ text. text.items ≡ period_line word.now sys.now vcpu from got of) }
{
    let name = sys.parts()[vcpu as usize].name().as_str();
    Ok(format!(in alloc; "{word} {name} from_ns={from} got_ns={got} of_ns={of}\n")?.into_bytes())
}
