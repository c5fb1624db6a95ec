ghost use Rattle.std.specs.Prelude.{◌≡◌, List, ℕ};
ghost use Rattle.command_frame.specs.Steps.{ending_of, IfAnswered, EndsJudged};
ghost use Rattle.trace_commands.specs.Audit.{finding_status};
ghost use Rattle.trace_commands.specs.Steal.{steal_status};
ghost use Rattle.trace_commands.specs.Told.{counted_by, trace_says};
ghost use Rattle.trace_commands.specs.inner.Walk.{BeginsWalk, IsAuditUnder};

use crate::walk::TraceWalk;
use auditor::{Audit, Counted, Finding, StealFinding};
use command_frame::{Answer, Ending, JudgePieces, Status, spelled};
use rt_report::{audit_text, steal_text, tally_text};
use std::alloc::Global;
use tree_model::{Plan, System};

/// What is told of a trace.
#[derive(Clone, Copy)]
pub enum TraceCommand {
    /// `audit FILE TRACE`: whether the trace gives each VCPU its budget in every period throughout
    /// which it could run, and never more without extra time.
    Audit,
    /// `tally FILE TRACE`: what `audit` answers, and what is counted of each VCPU.
    Tally,
    /// `steal FILE TRACE`: whether in each period no more is stolen from a VCPU than the period has
    /// beyond its budget, and what is counted of each.
    Steal,
}

impl<'s> JudgePieces<'s> for TraceCommand {
    type Taker = TraceWalk<'s>;

    ghost says = { trace_says };

    ghost begins = { λ command sys walk. BeginsWalk (counted_by command) sys walk };

    fn begin(&self, alloc: Global, sys: &'s System) -> Result<TraceWalk<'s>, Ending> {
        TraceWalk::new(alloc, sys, counted_by(*self))
    }

    // Where no budgets are assigned the answer is the same to all.
    fn end(&self, alloc: Global, sys: &System, walk: TraceWalk<'s>) -> Result<Answer, Ending> {
        let (plan, audit) = walk.audited(alloc)?;
        answer_of(*self, alloc, sys, &plan, audit)
    }
}

/// Which time of a VCPU the command counts.
fn counted_by(command: TraceCommand) -> Counted
    ensures { result ≡ counted_by command }
{
    match command {
        TraceCommand::Audit => Counted::Core,
        TraceCommand::Tally => Counted::Core,
        TraceCommand::Steal => Counted::Stolen,
    }
}

/// The answer to a trace that was audited under the budgets.
fn answer_of(
    command: TraceCommand,
    alloc: Global,
    sys: &System,
    plan: &Plan,
    audit: Audit<'_>,
) -> Result<Answer, Ending>
    requires { (bytes : List ℕ)
        × IsAuditUnder (counted_by command) sys.now bytes plan.now audit }
    ensures answer { (bytes : List ℕ)
        → IsAuditUnder (counted_by command) sys.now bytes plan.now audit.entry
        → IfAnswered (ending_of result)
        (λ a. trace_says command sys.now bytes a.status a.text.items) }
    ensures judged { EndsJudged (ending_of result) }
{
    match command {
        TraceCommand::Audit => {
            let finding = spelled(alloc, audit.finish())?;
            Ok(Answer {
                status: status_of(finding),
                text: audit_text(alloc, sys, plan, &finding)?,
            })
        }
        TraceCommand::Tally => {
            let tallied = spelled(alloc, audit.finish_tallied(alloc))?;
            Ok(Answer {
                status: status_of(tallied.finding),
                text: tally_text(alloc, sys, plan, &tallied)?,
            })
        }
        TraceCommand::Steal => {
            let stolen = spelled(alloc, audit.finish_stolen(alloc))?;
            Ok(Answer {
                status: steal_status_of(stolen.finding),
                text: steal_text(alloc, sys, plan, &stolen)?,
            })
        }
    }
}

fn status_of(finding: Finding) -> Status
    ensures { result ≡ finding_status finding }
{
    match finding {
        Finding::Yes { .. } => Status::Yes,
        Finding::Short { .. } => Status::No,
        Finding::Over { .. } => Status::No,
    }
}

fn steal_status_of(finding: StealFinding) -> Status
    ensures { result ≡ steal_status finding }
{
    match finding {
        StealFinding::Yes { .. } => Status::Yes,
        StealFinding::Denied { .. } => Status::No,
    }
}
