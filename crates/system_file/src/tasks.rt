ghost use Rattle.std.specs.Prelude.{◌≡◌, ◌≢◌, ◌≤◌, List, [], ◌∷◌, ◌++◌, length, map, IfOk, IfErr};
ghost use Rattle.slot_model.specs.Task.{sporadic_task};
ghost use Rattle.tree_model.specs.Lists.{first_of};
ghost use Rattle.toml.specs.Data.{Data, table as toml_table};
ghost use Rattle.toml_items.specs.Item.{item_view, entries_view};
ghost use Rattle.system_file.specs.declared.fault.SystemFault.TheVariants.{NoMemory};
ghost use Rattle.system_file.specs.Document.{spelled_task};
ghost use Rattle.system_file.specs.Faults.{task_number_faults, task_keys as keys, task_key_faults, task_faults, table_faults, in_order};
ghost use Rattle.system_file.specs.inner.Reading.{HaveNames};

use crate::format::{Format, task_keys};
use crate::keys::{below_at, check_keys, given_number_at, number_at, table_of};
use crate::names::{Names, name_at};
use crate::{Spot, SystemFault};
use slot_model::{LIMIT, Task};
use std::alloc::Global;
use toml_items::{Entry, Item};
use tree_model::Named;

/// The numbers of a task, whose deadline is its period and whose jitter is 0 where none is given.
fn numbers_at(table: &[Entry<'_>], spot: Spot) -> Result<Task, SystemFault>
    ensures ok { IfOk result (λ t. let d = toml_table (entries_view table.now) in
        (task_number_faults spot d ≡ []) × (sporadic_task t ≡ (spelled_task d).task)) }
    ensures fault { IfErr result (λ fault. let d = toml_table (entries_view table.now) in
        first_of (task_number_faults spot d) ≡ Some fault) }
{
    let period = number_at(table, "period", LIMIT, spot)?;
    let deadline = given_number_at(table, "deadline", period, spot)?.unwrap_or(period);
    let jitter = below_at(table, "jitter", deadline, spot)?;
    let work = number_at(table, "work", deadline - jitter, spot)?;
    match Task::with_jitter(period, deadline, work, jitter) {
        Some(task) => Ok(task),
        None => unreachable!(),
    }
}

/// A task, whose name is put behind the names of the tasks before it.
fn read_task<'t>(
    alloc: Global,
    value: &Item<'t>,
    format: Format,
    spot: Spot,
    names: &mut Names<'t>,
) -> Result<Named, SystemFault>
    ensures ok { IfOk result (λ named.
        (earlier : List Data) → HaveNames earlier names.old → let d = item_view value.now in
        (table_faults spot (keys format) (task_key_faults spot earlier d) d ≡ [])
        × (named ≡ spelled_task d)
        × HaveNames (earlier ++ d ∷ []) names.new) }
    ensures fault { IfErr result (λ fault. fault ≢ NoMemory →
        (earlier : List Data) → HaveNames earlier names.old → let d = item_view value.now in
        let found = table_faults spot (keys format) (task_key_faults spot earlier d) d in
        first_of found ≡ Some fault) }
{
    let table = table_of(value, spot)?;
    task_of(alloc, table, format, spot, names)
}

/// The task of a table, whose name is put behind the names of the tasks before it.
pub fn task_of<'t>(
    alloc: Global,
    table: &[Entry<'t>],
    format: Format,
    spot: Spot,
    names: &mut Names<'t>,
) -> Result<Named, SystemFault>
    ensures ok { IfOk result (λ named. (earlier : List Data) → HaveNames earlier names.old →
        let d = toml_table (entries_view table.now) in
        (table_faults spot (keys format) (task_key_faults spot earlier d) d ≡ [])
        × (named ≡ spelled_task d)
        × HaveNames (earlier ++ d ∷ []) names.new) }
    ensures fault { IfErr result (λ fault. fault ≢ NoMemory →
        (earlier : List Data) → HaveNames earlier names.old →
        let d = toml_table (entries_view table.now) in
        let found = table_faults spot (keys format) (task_key_faults spot earlier d) d in
        first_of found ≡ Some fault) }
{
    check_keys(table, task_keys(format), spot)?;
    let name = name_at(alloc, table, names, spot)?;
    let task = numbers_at(table, spot)?;
    Ok(Named { name, task })
}

/// The tasks of a part. The names, which are those of another part's tasks before, become theirs.
pub fn read_tasks<'t>(
    alloc: Global,
    values: &[Item<'t>],
    format: Format,
    part: u32,
    names: &mut Names<'t>,
) -> Result<Vec<Named>, SystemFault>
    requires few { length values.now ≤ 256 }
    ensures ok { IfOk result (λ tasks.
        (in_order (task_faults format part) [] (map item_view values.now) ≡ [])
        × (tasks.items ≡ map spelled_task (map item_view values.now))) }
    ensures fault { IfErr result (λ fault. fault ≢ NoMemory →
        first_of (in_order (task_faults format part) [] (map item_view values.now)) ≡ Some fault) }
{
    names.clear();
    let mut tasks = Vec::with_capacity(alloc, values.len())?;
    for (place, value) in values.iter().enumerate() {
        let spot = Spot::Task(part, place as u32);
        let task = read_task(alloc, value, format, spot, names)?;
        tasks.push(task)?;
    }
    Ok(tasks)
}
