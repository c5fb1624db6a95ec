ghost use Rattle.std.specs.Prelude.{◌≡◌, IfOk, IfErr};
ghost use Rattle.tree_model.specs.Admission.{Admitted, Assigned};
ghost use Rattle.tree_model.specs.Plans.{IsPlan};
ghost use Rattle.compose_tree.specs.Shorts.{AreShorts};
ghost use Rattle.rt_report.specs.Refusal.{refusal_text, IsRefusalOf};
ghost use Rattle.command_frame.specs.Attempt.{IsRefused};
ghost use Rattle.command_frame.specs.Budgets.{assigning, composing, refusal_status};
ghost use Rattle.command_frame.specs.Steps.{IfAnswered, IsJudged, EndsJudged};

use crate::Status;
use crate::answer::{Answer, Ending};
use compose_tree::{Composed, assign, compose, compose_edges};
use rt_report::refusal_text;
use std::alloc::{AllocError, Global};
use tree_model::{Plan, Refusal, System};

/// The answer to a refusal of a node of the system.
pub fn refuse(alloc: Global, sys: &System, refusal: Refusal) -> Result<Answer, AllocError>
    requires { IsRefusalOf sys.now refusal }
    ensures status { IfOk result (λ a. a.status ≡ refusal_status refusal) }
    ensures text { IfOk result (λ a. a.text.items ≡ refusal_text sys.now refusal) }
    ensures judged { IfOk result (λ a. IsJudged a.status) }
{
    let status = match refusal {
        Refusal::Overfull(_, _) => Status::No,
        Refusal::Wide(_) => Status::Wide,
        Refusal::NoMemory => unreachable!(),
    };
    Ok(Answer {
        status,
        text: refusal_text(alloc, sys, &refusal)?,
    })
}

/// The budgets of all parts: the given ones, untested, and the least ones that pass. It stops at
/// the first part that has none.
#[tactic(auto, using(crate::proofs::Budgets::unassigned_told))]
pub fn assigned(alloc: Global, sys: &System) -> Result<Plan, Ending>
    ensures assigned { IfOk result (λ plan. Assigned sys.now plan) }
    ensures plan { IfOk result (λ plan. IsPlan sys.now plan) }
    ensures refused { IfErr result (λ stop. IfAnswered stop (λ a.
        IsRefused (assigning sys.now) a.status a.text.items)) }
    ensures judged { IfErr result (λ stop. EndsJudged stop) }
{
    match assign(alloc, sys) {
        Ok(plan) => Ok(plan),
        Err(Refusal::NoMemory) => Err(Ending::NoMemory),
        Err(refusal) => Err(Ending::Answered(refuse(alloc, sys, refusal)?)),
    }
}

/// The budgets that admit the system. It stops at the first node that refuses.
#[tactic(auto, using(crate::proofs::Budgets::refusal_told))]
pub fn admitted(alloc: Global, sys: &System) -> Result<Plan, Ending>
    ensures admitted { IfOk result (λ plan. Admitted sys.now plan) }
    ensures plan { IfOk result (λ plan. IsPlan sys.now plan) }
    ensures refused { IfErr result (λ stop. IfAnswered stop (λ a.
        IsRefused (composing sys.now) a.status a.text.items)) }
    ensures judged { IfErr result (λ stop. EndsJudged stop) }
{
    match compose(alloc, sys) {
        Ok(plan) => Ok(plan),
        Err(Refusal::NoMemory) => Err(Ending::NoMemory),
        Err(refusal) => Err(Ending::Answered(refuse(alloc, sys, refusal)?)),
    }
}

/// The same, with what is short first of each leaf whose budget is computed with one slot less.
#[tactic(auto, using(crate::proofs::Budgets::refusal_told))]
pub fn admitted_edges(alloc: Global, sys: &System) -> Result<Composed, Ending>
    ensures admitted { IfOk result (λ composed. Admitted sys.now composed.plan) }
    ensures plan { IfOk result (λ composed. IsPlan sys.now composed.plan) }
    ensures shorts { IfOk result
        (λ composed. AreShorts sys.now composed.plan composed.shorts.items) }
    ensures refused { IfErr result (λ stop. IfAnswered stop (λ a.
        IsRefused (composing sys.now) a.status a.text.items)) }
    ensures judged { IfErr result (λ stop. EndsJudged stop) }
{
    match compose_edges(alloc, sys) {
        Ok(composed) => Ok(composed),
        Err(Refusal::NoMemory) => Err(Ending::NoMemory),
        Err(refusal) => Err(Ending::Answered(refuse(alloc, sys, refusal)?)),
    }
}
