ghost use Rattle.guest_commands.specs.Responses.{Responds};

use crate::responding::respond_all;
use command_frame::{Answer, Ending, JudgeOne, Status, admitted};
use rt_report::responses_text;
use std::alloc::Global;
use tree_model::System;

/// `responses FILE`: how late the jobs of each task of a leaf under a fixed priority can be, where
/// the system of the file is admitted.
#[derive(Clone, Copy)]
pub struct Responses;

impl JudgeOne for Responses {
    ghost says = { λ _. Responds };

    fn judge(&self, alloc: Global, sys: &System) -> Result<Answer, Ending> {
        let plan = admitted(alloc, sys)?;
        let rows = respond_all(alloc, sys, &plan)?;
        Ok(Answer {
            status: Status::Yes,
            text: responses_text(alloc, sys, &rows)?,
        })
    }
}
