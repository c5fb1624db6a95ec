ghost use Rattle.admit_commands.specs.Admit.{Admits};

use command_frame::{Answer, Ending, JudgeOne, Status, admitted_edges};
use miss_witness::replay_all;
use rt_report::admit_text;
use std::alloc::Global;
use tree_model::System;

/// `admit FILE`: whether the system of the file is admitted, with its budgets and what defeats the
/// next smaller ones.
#[derive(Clone, Copy)]
pub struct Admit;

impl JudgeOne for Admit {
    ghost says = { λ _. Admits };

    fn judge(&self, alloc: Global, sys: &System) -> Result<Answer, Ending> {
        let composed = admitted_edges(alloc, sys)?;
        let replays = replay_all(alloc, sys, &composed)?;
        Ok(Answer {
            status: Status::Yes,
            text: admit_text(alloc, sys, &composed.plan, &replays)?,
        })
    }
}
