ghost use Rattle.std.specs.Prelude.{◌≡◌, ◌++◌, IfOk, OnOk, string_bytes, drop, length};
ghost use Rattle.rt_report.specs.Admit.{admit_text, part_line, witness_line, miss_words, short_task, first_witness};

use crate::missed::push_missed;
use crate::names;
use miss_witness::Replay;
use slot_model::Miss;
use std::alloc::{AllocError, Global};
use tree_model::{Part, Plan, System};

/// The text of an admission: the verdict, then a line a part, and below each computed leaf what
/// defeats the next smaller budget. `replays` has one entry a computed leaf, in file order.
pub fn admit_text(
    alloc: Global,
    sys: &System,
    plan: &Plan,
    replays: &[Replay],
) -> Result<Vec<u8>, AllocError>
    requires { length plan.now ≡ length sys.now.parts }
    ensures { IfOk result (λ text. text.items ≡ admit_text sys.now plan.now replays.now) }
{
    let mut text = String::from_str(alloc, "verdict=yes\n")?;
    let budgets = plan.budgets();
    let mut left = replays;
    for (q, part) in sys.parts().iter().enumerate() {
        push_part(&mut text, part, budgets[q])?;
        if part.is_computed_leaf() {
            left = push_first(&mut text, part, left)?;
        }
    }
    Ok(text.into_bytes())
}

/// Writes the line of a part.
pub fn push_part(text: &mut String, part: &Part, budget: u64) -> Result<(), AllocError>
    ensures { OnOk result
        (string_bytes text.new ≡ string_bytes text.old ++ part_line part.now budget) }
{
    let name = part.name().as_str();
    let period = part.period();
    match part.budget() {
        Some(_) => write!(text, "part {name} period={period} budget={budget} given\n"),
        None => write!(
            text,
            "part {name} period={period} budget={budget} computed\n"
        ),
    }
}

// Writes the first of the replays and gives those behind it.
fn push_first<'a>(
    text: &mut String,
    part: &Part,
    replays: &'a [Replay],
) -> Result<&'a [Replay], AllocError>
    ensures line { OnOk result (
        string_bytes text.new ≡ string_bytes text.old ++ first_witness part.now replays.now) }
    ensures later { IfOk result (λ later. later.now ≡ drop 1 replays.now) }
{
    match replays.split_first() {
        Some((replay, later)) => {
            push_witness(text, part, replay)?;
            Ok(later)
        }
        None => Ok(replays),
    }
}

fn push_witness(text: &mut String, part: &Part, replay: &Replay) -> Result<(), AllocError>
    ensures { OnOk result (
        string_bytes text.new ≡ string_bytes text.old ++ witness_line part.now replay.now) }
{
    let name = part.name().as_str();
    let witness = replay.witness;
    write!(
        text,
        "witness {name} budget={} start={} span={} task=",
        witness.budget, witness.start, witness.span
    )?;
    text.push_str(short_task(part, witness.task))?;
    text.push_str(" replay=")?;
    push_miss(text, part, replay.miss)
}

fn short_task(part: &Part, task: Option<u32>) -> &str
    ensures { result.now ≡ short_task part.now task }
{
    match task {
        Some(i) => names::task(part, i),
        None => "-",
    }
}

fn push_miss(text: &mut String, part: &Part, miss: Option<Miss>) -> Result<(), AllocError>
    ensures { OnOk result
        (string_bytes text.new ≡ string_bytes text.old ++ miss_words part.now miss) }
{
    match miss {
        Some(miss) => push_missed(text, names::task(part, miss.task), miss),
        None => text.push_str("skipped\n"),
    }
}
