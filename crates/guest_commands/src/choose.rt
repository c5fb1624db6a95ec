ghost use Rattle.std.specs.Prelude.{◌≡◌, ◌<◌, length, IfOk};
ghost use Rattle.guest_commands.specs.Choose.{choice_status, choice_text, IsChosen, Chooses};
ghost use Rattle.command_frame.specs.Steps.{IsJudged};

use crate::periods::Periods;
use command_frame::{Answer, Ending, JudgeOne, Status, find_leaf, part_at};
use period_choice::{Choice, choose};
use rt_report::{best_text, nothing_text};
use std::alloc::{AllocError, Global};
use tree_model::{System, own_tasks};

/// `choose FILE PART LOW HIGH`: the period of the range at which a leaf needs the least share of
/// the processor.
#[derive(Clone, Copy)]
pub struct Choose<'a> {
    pub part: &'a str,
    pub periods: Periods,
}

impl JudgeOne for Choose<'_> {
    ghost says = { λ s. Chooses s.part.now s.periods.low s.periods.high };

    #[tactic(auto, using(command_frame::proofs::NamedLeaf::leaf_said, command_frame::proofs::NamedLeaf::leaf_refused))]
    fn judge(&self, alloc: Global, sys: &System) -> Result<Answer, Ending> {
        let q = find_leaf(alloc, sys, self.part)?;
        Ok(of_leaf(alloc, sys, q, self.periods)?)
    }
}

/// The answer for the leaf at place `q`.
#[tactic(auto, using(crate::proofs::Laws::Choose::told_chosen))]
fn of_leaf(alloc: Global, sys: &System, q: u32, periods: Periods) -> Result<Answer, AllocError>
    requires { q < length sys.now.parts }
    ensures answer { IfOk result
        (λ a. IsChosen sys.now periods.low periods.high q a.status a.text.items) }
    ensures judged { IfOk result (λ a. IsJudged a.status) }
{
    let part = part_at(sys, q);
    let tasks = own_tasks(alloc, part)?;
    let choice = choose(part.sched(), &tasks, periods.low, periods.high);
    told(alloc, sys, q, choice)
}

/// The answer that tells a choice for the leaf at place `q`.
fn told(alloc: Global, sys: &System, q: u32, choice: Choice) -> Result<Answer, AllocError>
    requires { q < length sys.now.parts }
    ensures status { IfOk result (λ a. a.status ≡ choice_status choice) }
    ensures text { IfOk result (λ a. a.text.items ≡ choice_text sys.now q choice) }
    ensures judged { IfOk result (λ a. IsJudged a.status) }
{
    match choice {
        Choice::Best { period, budget } => Ok(Answer {
            status: Status::Yes,
            text: best_text(alloc, part_at(sys, q), period, budget)?,
        }),
        Choice::Nothing { over, wide } => Ok(Answer {
            status: Status::No,
            text: nothing_text(alloc, over, wide)?,
        }),
    }
}
