ghost use Rattle.std.specs.Prelude.{◌≡◌, ◌++◌, ◌<◌, ◌≤◌, length, IfOk, OnOk, string_bytes};
ghost use Rattle.slot_model.specs.Task.{task_at};
ghost use Rattle.tree_model.specs.System.{own_tasks};
ghost use Rattle.rt_report.specs.Slack.{slack_line, slack_text};

use crate::names;
use std::alloc::{AllocError, Global};
use tree_model::Part;

/// The text of how far the work of each task of a leaf may grow: the verdict, and a line a task.
/// `works` are the greatest ones, in slots and in the order of the tasks.
pub fn slack_text(alloc: Global, part: &Part, works: &[u64]) -> Result<Vec<u8>, AllocError>
    requires one_each { length works.now ≡ length part.now.tasks }
    requires few { length part.now.tasks ≤ 256 }
    ensures { IfOk result (λ text. text.items ≡ slack_text part.now works.now) }
{
    let mut text = String::from_str(alloc, "verdict=yes\n")?;
    for i in 0..works.len() as u32 {
        push_slack(&mut text, part, i, works[i as usize])?;
    }
    Ok(text.into_bytes())
}

fn push_slack(text: &mut String, part: &Part, i: u32, most: u64) -> Result<(), AllocError>
    requires { i < length part.now.tasks }
    ensures { OnOk result
        (string_bytes text.new ≡ string_bytes text.old ++ slack_line part.now i most) }
{
    let name = part.name().as_str();
    let task = names::task(part, i);
    let work = work_of(part, i);
    write!(text, "slack {name} {task} work={work} most={most}\n")
}

/// The work of the task at a place, in slots.
fn work_of(part: &Part, i: u32) -> u64
    requires { i < length part.now.tasks }
    ensures { result ≡ (task_at (own_tasks part.now) i).work }
{
    part.tasks()[i as usize].task().work
}
