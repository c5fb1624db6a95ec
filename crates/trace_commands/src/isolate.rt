ghost use Rattle.std.specs.Prelude.{◌≡◌, List, ℕ, IfErr, OnOk, length};
ghost use Rattle.rtds_sim.specs.Fault.{AllRtds};
ghost use Rattle.command_frame.specs.Attempt.{IsRefused};
ghost use Rattle.trace_commands.specs.Isolate.{Isolates, isolating, isolation_status};
ghost use Rattle.command_frame.specs.Steps.{IfAnswered, EndsJudged};

use crate::rtds::not_rtds;
use command_frame::{Answer, Ending, JudgeOne, Status, admitted};
use isolation::{PartIsolation, are_isolated, core_budgets, isolations};
use rt_report::isolation_text;
use rtds_sim::other_core;
use std::alloc::Global;
use tree_model::{Plan, System};

/// `isolate FILE`: what each part that stands on a core keeps of its budget, whatever the others of
/// its core do, and the budgets and the shortest period of each such core, where the system of the
/// file is admitted.
#[derive(Clone, Copy)]
pub struct Isolate;

impl JudgeOne for Isolate {
    ghost says = { λ _. Isolates };

    fn judge(&self, alloc: Global, sys: &System) -> Result<Answer, Ending> {
        let plan = admitted(alloc, sys)?;
        go_by_rtds(alloc, sys, &plan)?;
        let rows = isolations(alloc, sys, &plan)?;
        let cores = core_budgets(alloc, sys, &plan)?;
        let text = isolation_text(alloc, sys, &rows, &cores)?;
        Ok(Answer {
            status: status_of(&rows),
            text,
        })
    }
}

// All cores are full and under earliest deadline first, or it stops at the first that is not.
fn go_by_rtds(alloc: Global, sys: &System, plan: &Plan) -> Result<(), Ending>
    ensures all { OnOk result (AllRtds sys.now (length sys.now.cores)) }
    ensures refused { IfErr result (λ stop. IfAnswered stop (λ a.
        IsRefused (isolating sys.now plan.now) a.status a.text.items)) }
    ensures judged { IfErr result (λ stop. EndsJudged stop) }
{
    match other_core(sys) {
        Some(core) => Err(Ending::Answered(not_rtds(alloc, sys, core)?)),
        None => Ok(()),
    }
}

// The status that tells whether all are isolated.
fn status_of(rows: &[PartIsolation]) -> Status
    ensures { result ≡ isolation_status rows.now }
{
    if are_isolated(rows) {
        Status::Yes
    } else {
        Status::No
    }
}
