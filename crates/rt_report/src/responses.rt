ghost use Rattle.std.specs.Prelude.{◌≡◌, ◌++◌, IfOk, OnOk, string_bytes};
ghost use Rattle.rt_report.specs.Responses.{response_line, replay_words, responses_text};

use crate::names;
use std::alloc::{AllocError, Global};
use tree_model::System;

/// The greatest response of the task at place `task` of the leaf at place `part`, the slots that
/// the task leaves it, and what its replay shows: None where the run is too long to be replayed.
/// All numbers but the places are slots.
#[derive(Clone, Copy, Debug, PartialEq, Eq)]
pub struct Response {
    pub part: u32,
    pub task: u32,
    pub worst: u64,
    pub limit: u64,
    pub replay: Option<u64>,
}

/// The text of the responses: the verdict, and a line each.
pub fn responses_text(alloc: Global, sys: &System, rows: &[Response]) -> Result<Vec<u8>, AllocError>
    ensures { IfOk result (λ text. text.items ≡ responses_text sys.now rows.now) }
{
    let mut text = String::from_str(alloc, "verdict=yes\n")?;
    for row in rows {
        push_response(&mut text, sys, row)?;
    }
    Ok(text.into_bytes())
}

fn push_response(text: &mut String, sys: &System, row: &Response) -> Result<(), AllocError>
    ensures { OnOk result
        (string_bytes text.new ≡ string_bytes text.old ++ response_line sys.now row.now) }
{
    let part = names::part(sys, row.part);
    let task = names::task_at(sys, row.part, row.task);
    write!(
        text,
        "response {part} {task} worst={} limit={} replay=",
        row.worst, row.limit
    )?;
    push_replay(text, row.replay)
}

fn push_replay(text: &mut String, replay: Option<u64>) -> Result<(), AllocError>
    ensures { OnOk result (
        string_bytes text.new ≡ string_bytes text.old ++ replay_words replay) }
{
    match replay {
        Some(t) => write!(text, "{t}\n"),
        None => text.push_str("skipped\n"),
    }
}
