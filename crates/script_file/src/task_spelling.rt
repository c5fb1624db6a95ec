ghost use Rattle.std.specs.Prelude.{◌≡◌, ◌≢◌, ◌≤◌, ◌∷◌, [], length, map, option_map, IfOk, MatchOption};
ghost use Rattle.slot_model.specs.Task.{sporadic_task};
ghost use Rattle.script_file.specs.Pieces.{pieces};
ghost use Rattle.script_file.specs.Script.{all_there, numbers_in, task_in, tasks_in};
ghost use Rattle.script_file.specs.inner.Fields.{task_fields};

use crate::cutting::cut;
use crate::numbers::number;
use slot_model::{Name, Task};
use std::alloc::{AllocError, Global};
use tree_model::Named;

/// The five fields of a task.
#[derive(Clone, Copy)]
struct TaskFields<'t> {
    name: &'t [u8],
    period: &'t [u8],
    deadline: &'t [u8],
    jitter: &'t [u8],
    work: &'t [u8],
}

/// The front of a text up to its first colon, and what is behind that.
fn next_piece(text: &[u8]) -> Option<(&[u8], &[u8])>
    ensures { MatchOption result
        (length (pieces 58 text.now) ≡ 1)
        (λ two. pieces 58 text.now ≡ two.0.now ∷ pieces 58 two.1.now) }
{
    match cut(text, b':') {
        (piece, Some(rest)) => Some((piece, rest)),
        (_, None) => None,
    }
}

/// A text without a colon.
#[tactic(auto, using(crate::proofs::CutPieces::pieces_filled))]
fn last_piece(text: &[u8]) -> Option<&[u8]>
    ensures { MatchOption result
        (2 ≤ length (pieces 58 text.now))
        (λ last. pieces 58 text.now ≡ last.now ∷ []) }
{
    match cut(text, b':') {
        (piece, None) => Some(piece),
        (_, Some(_)) => None,
    }
}

/// The fields of a text that is cut into five at its colons.
fn five_fields(text: &[u8]) -> Option<TaskFields<'_>>
    ensures { MatchOption result
        (length (pieces 58 text.now) ≢ 5)
        (λ f. pieces 58 text.now ≡ task_fields f) }
{
    let (name, rest) = next_piece(text)?;
    let (period, rest) = next_piece(rest)?;
    let (deadline, rest) = next_piece(rest)?;
    let (jitter, rest) = next_piece(rest)?;
    let work = last_piece(rest)?;
    Some(TaskFields {
        name,
        period,
        deadline,
        jitter,
        work,
    })
}

/// The task of four numbers, where they make one.
fn spell_numbers(f: &TaskFields) -> Option<Task>
    ensures { option_map sporadic_task result ≡ numbers_in (task_fields f.now) }
{
    let period = number(f.period)?;
    let deadline = number(f.deadline)?;
    let jitter = number(f.jitter)?;
    let work = number(f.work)?;
    Task::with_jitter(period, deadline, work, jitter)
}

/// The task that a text spells, where it spells one.
fn spell_task(alloc: Global, text: &[u8]) -> Result<Option<Named>, AllocError>
    ensures { IfOk result (λ made. made ≡ task_in text.now) }
{
    let Some(fields) = five_fields(text) else {
        return Ok(None);
    };
    let Some(task) = spell_numbers(&fields) else {
        return Ok(None);
    };
    match Name::new(alloc, fields.name)? {
        None => Ok(None),
        Some(name) => Ok(Some(Named { name, task })),
    }
}

/// The tasks of a list that is not empty, where each spells one.
#[tactic(auto, using(crate::proofs::AllThere::none_yet))]
fn spell_some(alloc: Global, list: &[u8]) -> Result<Option<Vec<Named>>, AllocError>
    ensures { IfOk result (λ made. option_map (λ tasks. tasks.items) made
        ≡ all_there (map task_in (pieces 59 list.now))) }
{
    let mut tasks = Vec::new(alloc);
    let mut left = list;
    'tasks: loop {
        let (text, rest) = cut(left, b';');
        match spell_task(alloc, text)? {
            None => return Ok(None),
            Some(named) => tasks.push(named)?,
        }
        match rest {
            None => return Ok(Some(tasks)),
            Some(rest) => left = rest,
        }
    }
}

/// The tasks of a list, where each spells one. An empty one has none.
pub fn spell_tasks(alloc: Global, list: &[u8]) -> Result<Option<Vec<Named>>, AllocError>
    ensures { IfOk result (λ made. option_map (λ tasks. tasks.items) made ≡ tasks_in list.now) }
{
    if list.is_empty() {
        return Ok(Some(Vec::new(alloc)));
    }
    spell_some(alloc, list)
}
