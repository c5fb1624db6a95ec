ghost use Rattle.std.specs.Prelude.{◌≡◌, ◌≤◌, ◌<◌, ◌+◌, [], ◌∷◌, ◌++◌, true, List, ℕ, length, codes, None, IfOk, OnOk};
ghost use Rattle.toml.specs.Data.{get_member};
ghost use Rattle.toml_items.specs.Item.{entries_view};
ghost use Rattle.toml_items.specs.Plain.{path_of};
ghost use Rattle.system_file.specs.declared.fault.Spot.TheVariants.{Task};
ghost use Rattle.system_file.specs.Document.{spelled_core, spelled_task};
ghost use Rattle.system_file.specs.Faults.{core_faults, task_faults};
ghost use Rattle.system_file.specs.inner.Plain.{ReadsElement, ReadsList, ReadsPart, ReadsServer};

use crate::cores::core_of;
use crate::format::Format;
use crate::keys::find;
use crate::names::{Names, new_name};
use crate::parts::part_of;
use crate::tasks::task_of;
use crate::told::told_task;
use crate::{Spot, SystemFault};
use std::alloc::Global;
use toml_items::{Entry, Header, element, header_again, header_in, pairs, pairs_into};
use tree_model::{Core, Named, Part};

/// A core, and the text behind it.
#[derive(Drop)]
pub struct CoreThere<'t> {
    pub core: Core,
    pub rest: &'t str,
}

/// The core at the front of a text, behind a header of its array.
pub fn core_at<'t>(
    alloc: Global,
    header: Header<'t>,
    text: &'t str,
    place: usize,
    names: &mut Names<'t>,
) -> Result<CoreThere<'t>, SystemFault>
    requires { place ≤ 64 }
    ensures { IfOk result (λ there. ReadsElement core_faults spelled_core
        (path_of header.entry.parent ++ header.entry.key.now ∷ []) text.now place names.old
        there.core names.new there.rest.now) }
{
    let Some(found) = element(alloc, header, text)? else {
        return Err(SystemFault::NotToml);
    };
    let core = core_of(alloc, &found.entries, Spot::Core(place as u32), names)?;
    Ok(CoreThere {
        core,
        rest: found.rest,
    })
}

/// A task, and the text behind it.
#[derive(Drop)]
struct TaskThere<'t> {
    task: Named,
    rest: &'t str,
}

/// The task at the front of a text. Where its lines are not plain ones of known keys, its pairs
/// take the place of other entries.
fn task_at<'t>(
    alloc: Global,
    text: &'t str,
    entries: &mut Vec<Entry<'t>>,
    format: Format,
    spot: Spot,
    names: &mut Names<'t>,
) -> Result<TaskThere<'t>, SystemFault>
    ensures { IfOk result (λ there. (path : List (List ℕ)) (part place : ℕ) →
        spot ≡ Task part place → ReadsElement (task_faults format part) spelled_task path
        text.now place names.old there.task names.new there.rest.now) }
{
    let Some(told) = told_task(format, text) else {
        return task_of_pairs(alloc, text, entries, format, spot, names);
    };
    let name = new_name(alloc, told.name, names, spot)?;
    Ok(TaskThere {
        task: Named {
            name,
            task: told.task,
        },
        rest: told.rest,
    })
}

/// The task of the pairs at the front of a text, which take the place of other entries.
fn task_of_pairs<'t>(
    alloc: Global,
    text: &'t str,
    entries: &mut Vec<Entry<'t>>,
    format: Format,
    spot: Spot,
    names: &mut Names<'t>,
) -> Result<TaskThere<'t>, SystemFault>
    ensures { IfOk result (λ there. (path : List (List ℕ)) (part place : ℕ) →
        spot ≡ Task part place → ReadsElement (task_faults format part) spelled_task path
        text.now place names.old there.task names.new there.rest.now) }
{
    let Some(rest) = pairs_into(alloc, entries, text)? else {
        return Err(SystemFault::NotToml);
    };
    let task = task_of(alloc, entries, format, spot, names)?;
    Ok(TaskThere { task, rest })
}

/// Tasks, and the text behind them.
#[derive(Drop)]
struct Tasks<'t> {
    tasks: Vec<Named>,
    rest: &'t str,
}

/// The tasks of the array of this header, in a part. Their names take the place of others.
fn tasks_from<'t>(
    alloc: Global,
    header: Header<'t>,
    format: Format,
    part: u32,
    names: &mut Names<'t>,
) -> Result<Tasks<'t>, SystemFault>
    ensures { IfOk result (λ read. ReadsList (task_faults format part) spelled_task
        (path_of header.entry.parent) header.entry.key.now header.entry.rest.now 256
        read.tasks.items names.new read.rest.now) }
{
    names.clear();
    let mut tasks = Vec::new(alloc);
    let mut entries = Vec::new(alloc);
    let mut rest = header.rest;
    'elements: while tasks.len() < 256 {
        let spot = Spot::Task(part, tasks.len() as u32);
        let there = task_at(alloc, rest, &mut entries, format, spot, names)?;
        tasks.push(there.task)?;
        match header_again(header, there.rest) {
            Some(after) => rest = after,
            None => {
                return Ok(Tasks {
                    tasks,
                    rest: there.rest,
                });
            }
        }
    }
    Err(SystemFault::TooMany(Spot::Part(part)))
}

/// A part, and the text behind it.
#[derive(Drop)]
pub struct PartThere<'t> {
    pub part: Part,
    pub rest: &'t str,
}

/// The part at the front of a text, behind a header of its array.
pub fn part_at<'t>(
    alloc: Global,
    header: Header<'t>,
    text: &'t str,
    format: Format,
    cores: usize,
    earlier: &[Part],
    names: &mut Names<'t>,
    tasks: &mut Names<'t>,
) -> Result<PartThere<'t>, SystemFault>
    requires top { path_of header.parent ≡ [] }
    requires few_cores { cores ≤ 64 }
    requires few_parts { length earlier.now < 512 }
    requires names { length names.old ≡ cores + length earlier.now }
    ensures named { OnOk result (length names.new ≡ length names.old + 1) }
    ensures read { IfOk result (λ there. ReadsPart
        (path_of header.entry.parent ++ header.entry.key.now ∷ []) text.now format cores names.old
        earlier.now there.part names.new there.rest.now) }
{
    let place = earlier.len() as u32;
    let there = server_at(alloc, text, format, cores, earlier, names, tasks)?;
    let Some(inner) = header_in(Some(header.key), there.rest) else {
        return Ok(there);
    };
    if inner.key != "task" {
        return Err(SystemFault::NotToml);
    }
    let read = tasks_from(alloc, inner, format, place, tasks)?;
    Ok(PartThere {
        part: with_tasks(there.part, read.tasks),
        rest: read.rest,
    })
}

/// A part in front of its tasks, which it does not name by a pair.
fn server_at<'t>(
    alloc: Global,
    text: &'t str,
    format: Format,
    cores: usize,
    earlier: &[Part],
    names: &mut Names<'t>,
    tasks: &mut Names<'t>,
) -> Result<PartThere<'t>, SystemFault>
    requires few_cores { cores ≤ 64 }
    requires few_parts { length earlier.now < 512 }
    requires names { length names.old ≡ cores + length earlier.now }
    ensures named { OnOk result (length names.new ≡ length names.old + 1) }
    ensures read { IfOk result (λ there. (path : List (List ℕ)) → ReadsServer path text.now format
        cores names.old earlier.now there.part names.new there.rest.now) }
{
    let Some(found) = pairs(alloc, text)? else {
        return Err(SystemFault::NotToml);
    };
    if !is_left_out(&found.entries, "task") {
        return Err(SystemFault::NotToml);
    }
    let part = part_of(alloc, &found.entries, format, cores, earlier, names, tasks)?;
    Ok(PartThere {
        part,
        rest: found.rest,
    })
}

/// Whether a table has no such key.
fn is_left_out(table: &[Entry<'_>], key: &str) -> bool
    ensures { result ≡ true → get_member key.now (entries_view table.now) ≡ None }
{
    match find(table, key) {
        Some(_) => false,
        None => true,
    }
}

/// The part with these tasks.
fn with_tasks(part: Part, tasks: Vec<Named>) -> Part
    ensures { result ≡ record part { tasks = tasks.items } }
{
    Part {
        name: part.name,
        parent: part.parent,
        sched: part.sched,
        period: part.period,
        budget: part.budget,
        extra: part.extra,
        tasks,
    }
}
