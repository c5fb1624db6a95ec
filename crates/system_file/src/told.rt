//! The lines of a task by its known keys, with no items between the text and the numbers.
ghost use Rattle.std.specs.Prelude.{◌≡◌, ◌<◌, List, ℕ, true, codes, length, unwrap_or, IfSome};
ghost use Rattle.slot_model.specs.Task.{sporadic_task};
ghost use Rattle.toml_items.specs.Plain.{is_bare_key};
ghost use Rattle.system_file.specs.inner.Told.{of_number, of_text, TellsFirst, TellsMore, TellsLines, TellsTask};

use crate::format::Format;
use slot_model::Task;
use toml_items::{after_blank, number_line, text_line};
use toml_parser::text::first;

/// What the lines of a task tell of it.
#[derive(Clone, Copy)]
pub struct Told<'t> {
    name: Option<&'t str>,
    period: Option<u64>,
    deadline: Option<u64>,
    jitter: Option<u64>,
    work: Option<u64>,
}

/// A task that its lines tell, and the text behind them.
#[derive(Clone, Copy, Drop)]
pub struct ToldTask<'t> {
    pub name: &'t str,
    pub task: Task,
    pub rest: &'t str,
}

/// The task that the lines at the front of a text tell, up to a header or the end, where each is
/// the plain line of a known key and the numbers are those of a task. Whether the name is one, and
/// new, is left to the caller.
pub fn told_task<'t>(format: Format, text: &'t str) -> Option<ToldTask<'t>>
    ensures { IfSome result (λ there. (path : List (List ℕ)) → TellsTask format path text.now
        there.name.now (sporadic_task there.task) there.rest.now) }
{
    let there = told_lines(format, text)?;
    let task = task_of_numbers(&there.told)?;
    let name = there.told.name?;
    Some(ToldTask {
        name,
        task,
        rest: there.rest,
    })
}

/// The task of the numbers told. Its deadline is its period and its jitter 0 where none is told.
fn task_of_numbers(told: &Told<'_>) -> Option<Task>
    ensures { IfSome result (λ task.
        (told.now.period ≡ Some task.period) × (told.now.work ≡ Some task.work)
        × (task.deadline ≡ unwrap_or told.now.deadline task.period)
        × (task.jitter ≡ unwrap_or told.now.jitter 0)) }
{
    let period = told.period?;
    let deadline = told.deadline.unwrap_or(period);
    let jitter = told.jitter.unwrap_or(0);
    Task::with_jitter(period, deadline, told.work?, jitter)
}

/// What lines tell, and the text behind them.
#[derive(Clone, Copy, Drop)]
struct ToldLines<'t> {
    told: Told<'t>,
    rest: &'t str,
}

/// What the lines at the front of a text tell, up to a header or the end.
fn told_lines<'t>(format: Format, text: &'t str) -> Option<ToldLines<'t>>
    ensures { IfSome result (λ there. (path : List (List ℕ)) →
        TellsLines format path text.now there.told there.rest.now) }
{
    let mut told = Told {
        name: None,
        period: None,
        deadline: None,
        jitter: None,
        work: None,
    };
    let mut rest = text;
    'lines: loop {
        let start = after_blank(rest);
        if start.is_empty() || first(start) == b'[' {
            return Some(ToldLines { told, rest: start });
        }
        rest = take_line(format, &mut told, start)?;
    }
}

/// The text behind the line at the front of a text, which tells one thing more.
#[inline]
fn take_line<'t>(format: Format, told: &mut Told<'t>, text: &'t str) -> Option<&'t str>
    ensures tells { IfSome result (λ rest. TellsMore format told.old told.new text.now rest.now) }
    ensures shorter { IfSome result (λ rest. length rest.now < length text.now) }
{
    match first(text) {
        b'n' => take_name(&mut told.name, text),
        b'p' => take_number(&mut told.period, "period", text),
        b'd' => take_number(&mut told.deadline, "deadline", text),
        b'j' => match format {
            Format::One => None,
            Format::Two => take_number(&mut told.jitter, "jitter", text),
        },
        b'w' => take_number(&mut told.work, "work", text),
        _ => None,
    }
}

/// The text behind the line of this key, whose number is the first that is told.
#[inline(always)]
fn take_number<'t>(told: &mut Option<u64>, key: &str, text: &'t str) -> Option<&'t str>
    requires { is_bare_key key.now ≡ true }
    ensures line { IfSome result (λ rest.
        TellsFirst of_number key.now told.old told.new text.now rest.now) }
    ensures shorter { IfSome result (λ rest. length rest.now < length text.now) }
{
    if told.is_some() {
        return None;
    }
    let read = number_line(text, key)?;
    *told = Some(read.number);
    Some(read.rest)
}

/// The text behind the line of a name, which is the first that is told.
#[inline]
fn take_name<'t>(told: &mut Option<&'t str>, text: &'t str) -> Option<&'t str>
    ensures line { IfSome result (λ rest.
        TellsFirst of_text (codes "name") told.old told.new text.now rest.now) }
    ensures shorter { IfSome result (λ rest. length rest.now < length text.now) }
{
    if told.is_some() {
        return None;
    }
    let read = text_line(text, "name")?;
    *told = Some(read.content);
    Some(read.rest)
}
