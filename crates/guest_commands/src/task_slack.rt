ghost use Rattle.std.specs.Prelude.{◌≡◌, ◌<◌, length, true};
ghost use Rattle.tree_model.specs.System.{is_leaf_at};
ghost use Rattle.guest_commands.specs.Slack.{SlackensLeaf, Slackens};
ghost use Rattle.command_frame.specs.Steps.{ending_of, IfAnswered, EndsJudged};

use command_frame::{Answer, Ending, JudgeOne, Status, admitted, find_leaf, part_at};
use rt_report::slack_text;
use slack::slacks;
use std::alloc::Global;
use tree_model::System;

/// `slack FILE PART`: how far the work of each task of a leaf may grow, where the system of the
/// file is admitted.
#[derive(Clone, Copy)]
pub struct Slack<'a> {
    pub part: &'a str,
}

impl JudgeOne for Slack<'_> {
    ghost says = { λ s. Slackens s.part.now };

    #[tactic(auto, using(command_frame::proofs::NamedLeaf::leaf_stopped, command_frame::proofs::NamedLeaf::leaf_refused))]
    fn judge(&self, alloc: Global, sys: &System) -> Result<Answer, Ending> {
        let q = find_leaf(alloc, sys, self.part)?;
        of_leaf(alloc, sys, q)
    }
}

/// The answer for the leaf at place `q`.
fn of_leaf(alloc: Global, sys: &System, q: u32) -> Result<Answer, Ending>
    requires is_part { q < length sys.now.parts }
    requires is_leaf { is_leaf_at sys.now q ≡ true }
    ensures answer { IfAnswered (ending_of result)
        (λ a. SlackensLeaf sys.now q a.status a.text.items) }
    ensures judged { EndsJudged (ending_of result) }
{
    let plan = admitted(alloc, sys)?;
    let works = slacks(alloc, sys, &plan, q as usize)?;
    Ok(Answer {
        status: Status::Yes,
        text: slack_text(alloc, part_at(sys, q), &works)?,
    })
}
