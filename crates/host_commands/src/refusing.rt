ghost use Rattle.std.specs.Prelude.{IfOk};
ghost use Rattle.tree_model.specs.Admission.{FirstRefusal};
ghost use Rattle.command_frame.specs.Attempt.{IsRefused};
ghost use Rattle.command_frame.specs.Budgets.{composing};
ghost use Rattle.command_frame.specs.Steps.{IsJudged};

use command_frame::{Answer, refuse};
use std::alloc::{AllocError, Global};
use tree_model::{Refusal, System};

/// The answer where the system is refused as it stands.
#[tactic(auto, using(command_frame::proofs::Budgets::refusal_told))]
pub fn refuse_system(alloc: Global, sys: &System, refusal: Refusal) -> Result<Answer, AllocError>
    requires { FirstRefusal sys.now refusal }
    ensures refused { IfOk result (λ a. IsRefused (composing sys.now) a.status a.text.items) }
    ensures judged { IfOk result (λ a. IsJudged a.status) }
{
    refuse(alloc, sys, refusal)
}
