ghost use Rattle.std.specs.Prelude.{◌≡◌, ◌<◌, length, IfOk};
ghost use Rattle.guest_commands.specs.Interface.{least_status, least_text, AtDeadline, Interfaces};
ghost use Rattle.command_frame.specs.Steps.{IsJudged};

use crate::periods::Period;
use command_frame::{Answer, Ending, JudgeOne, Status, bad_file, find_leaf, part_at, refuse};
use edp_supply::least_explicit;
use least_budget::Least;
use rt_report::{FileFault, interface_text};
use std::alloc::{AllocError, Global};
use tree_model::{Place, Refusal, System, own_tasks};

/// `interface FILE PART DEADLINE`: the least budget with which a leaf passes where it gets it by
/// the deadline in each of its periods.
#[derive(Clone, Copy)]
pub struct Interface<'a> {
    pub part: &'a str,
    pub deadline: Period,
}

impl JudgeOne for Interface<'_> {
    ghost says = { λ s. Interfaces s.part.now s.deadline.slots };

    #[tactic(auto, using(command_frame::proofs::NamedLeaf::leaf_said, command_frame::proofs::NamedLeaf::leaf_refused))]
    fn judge(&self, alloc: Global, sys: &System) -> Result<Answer, Ending> {
        let q = find_leaf(alloc, sys, self.part)?;
        Ok(of_leaf(alloc, sys, q, self.deadline)?)
    }
}

/// The answer for the leaf at place `q`.
#[tactic(auto, using(crate::proofs::Laws::Interface::told_past, crate::proofs::Laws::Interface::told_within))]
fn of_leaf(alloc: Global, sys: &System, q: u32, deadline: Period) -> Result<Answer, AllocError>
    requires { q < length sys.now.parts }
    ensures answer { IfOk result
        (λ a. AtDeadline sys.now deadline.slots q a.status a.text.items) }
    ensures judged { IfOk result (λ a. IsJudged a.status) }
{
    let part = part_at(sys, q);
    if deadline.slots > part.period() {
        return bad_file(alloc, FileFault::BadDeadline, 1);
    }
    let tasks = own_tasks(alloc, part)?;
    let least = least_explicit(part.sched(), &tasks, part.period(), deadline.slots);
    told(alloc, sys, q, deadline.slots, least)
}

/// The answer that tells the least budget of the leaf at place `q`, or that it has none.
fn told(
    alloc: Global,
    sys: &System,
    q: u32,
    deadline: u64,
    least: Least,
) -> Result<Answer, AllocError>
    requires { q < length sys.now.parts }
    ensures status { IfOk result (λ a. a.status ≡ least_status least) }
    ensures text { IfOk result (λ a. a.text.items ≡ least_text sys.now q deadline least) }
    ensures judged { IfOk result (λ a. IsJudged a.status) }
{
    match least {
        Least::Budget(budget) => Ok(Answer {
            status: Status::Yes,
            text: interface_text(alloc, part_at(sys, q), deadline, budget)?,
        }),
        Least::Over(short) => refuse(alloc, sys, Refusal::Overfull(Place::Part(q), short)),
        Least::Wide => refuse(alloc, sys, Refusal::Wide(Place::Part(q))),
    }
}
