ghost use Rattle.std.specs.Prelude.{◌≡◌};
ghost use Rattle.admission_session.specs.Answers.{IsAdmitted};
ghost use Rattle.host_commands.specs.Session.{Edits};
ghost use Rattle.command_frame.specs.Steps.{ending_of, IfAnswered, EndsJudged};

use crate::editing::edit_all;
use crate::refusing::refuse_system;
use admission_session::{Session, copy_system};
use command_frame::{Answer, Ending, JudgeTwo, Status, spelled};
use script_file::read_edits;
use std::alloc::Global;
use tree_model::{Refusal, System};

/// `session FILE SCRIPT`: the answer to each row of edits of the system, and the plan of the one
/// that they leave.
#[derive(Clone, Copy)]
pub struct Editor;

impl JudgeTwo for Editor {
    ghost says = { λ _. Edits };

    // A fault of the script goes before a refusal of the system.
    fn judge(&self, alloc: Global, sys: &System, bytes: &[u8]) -> Result<Answer, Ending> {
        let copy = copy_system(alloc, sys)?;
        match Session::open(alloc, copy) {
            Ok(opened) => edited(alloc, sys, opened, bytes),
            Err((_, Refusal::NoMemory)) => Err(Ending::NoMemory),
            Err((_, refusal)) => {
                spelled(alloc, read_edits(alloc, bytes))?;
                Ok(refuse_system(alloc, sys, refusal)?)
            }
        }
    }
}

// The answers of a session of the system to the rows of a script.
fn edited(alloc: Global, sys: &System, opened: Session, bytes: &[u8]) -> Result<Answer, Ending>
    requires same { opened ≡ sys.now }
    requires admitted { IsAdmitted sys.now }
    ensures answer { IfAnswered (ending_of result)
        (λ a. Edits sys.now bytes.now a.status a.text.items) }
    ensures judged { EndsJudged (ending_of result) }
{
    let text = spelled(alloc, edit_all(alloc, opened, bytes))?;
    Ok(Answer {
        status: Status::Yes,
        text,
    })
}
