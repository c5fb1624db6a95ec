ghost use Rattle.std.specs.Prelude.{◌≡◌, ℕ, ◌≤◌, ◌<◌, true, false, map, length, slice_index_or, Some, IfOk, OnOk, IfSome, Ok as Spelled};
ghost use Rattle.std.specs.List.{list_any};
ghost use Rattle.slot_model.specs.Name.{is_name};
ghost use Rattle.slot_model.specs.declared.task.TheConstants.{LIMIT};
ghost use Rattle.toml.specs.Data.{string};
ghost use Rattle.toml.specs.Text.{IsDocumentText};
ghost use Rattle.toml.specs.View.{view, table_view};
ghost use Rattle.tree_model.specs.System.{IsSystem, IsPart, IsCoreSupply, no_core};
ghost use Rattle.tree_model.specs.Tree.{place_of, IsNode};
ghost use Rattle.system_file.specs.SystemFile.{system_of, file_format, part_has_jitter, needed_format as format_needed};
ghost use Rattle.toml_items.specs.Plain.{insert_member};
ghost use Rattle.system_file.specs.Printed.{with_some, number, other_number, some_number, true_flag, some_array, sched_word, with_supply, printed_core, printed_task, parent_name, printed_part, printed, format_number};
ghost use Rattle.system_file.specs.inner.Named.{TasksAreNamed, IsPartNamed, CoresAreNamed, PartsAreNamed};

use crate::format::Format;
use slot_model::{Name, Sched};
use std::alloc::{AllocError, Global};
use toml::{Table, Value};
use tree_model::{Core, Named, Parent, Part, System};

/// A system file that spells the system, of format 1 where no task has jitter and else of format 2.
/// A key that may be left out is written only where it says something else than its absence.
pub fn print_system(alloc: Global, sys: &System) -> Result<Vec<u8>, AllocError>
    ensures spells { IfOk result (λ text. system_of text.items ≡ Spelled sys.now) }
    ensures format { IfOk result (λ text. file_format text.items ≡ Some (format_needed sys.now)) }
    // the text of the printed document, of which there is one
    ensures text { IfOk result (λ text. IsDocumentText false (printed sys.now) text.items) }
{
    let table = system_table(alloc, sys)?;
    match toml::table_to_string(alloc, &table) {
        Ok(text) => Ok(text.into_bytes()),
        Err(toml::ser::Error::OutOfMemory) => Err(AllocError),
        Err(toml::ser::Error::DateInvalid) => unreachable!(),
    }
}

fn system_table(alloc: Global, sys: &System) -> Result<Table, AllocError>
    ensures printed { IfOk result (λ table. table_view table ≡ printed sys.now) }
    ensures system { IsSystem sys.now }
    ensures cores { OnOk result (CoresAreNamed sys.now.cores) }
    ensures parts { OnOk result (PartsAreNamed sys.now.parts) }
{
    let mut table = Table::new(alloc);
    let cores = core_tables(alloc, sys.cores())?;
    let parts = part_tables(alloc, sys)?;
    put_number(alloc, &mut table, "format", number_of(needed_format(sys)))?;
    put(alloc, &mut table, "core", Value::Array(cores))?;
    put_some_array(alloc, &mut table, "part", parts)?;
    Ok(table)
}

/// Format 2 exactly where some task has jitter.
fn needed_format(sys: &System) -> Format
    ensures { result ≡ format_needed sys.now }
{
    if any_has_jitter(sys.parts()) {
        Format::Two
    } else {
        Format::One
    }
}

fn any_has_jitter(parts: &[Part]) -> bool
    ensures { result ≡ list_any part_has_jitter parts.now }
{
    parts.iter().any(|part| has_jitter(part))
}

fn has_jitter(part: &Part) -> bool
    ensures { result ≡ part_has_jitter part.now }
{
    part.tasks().iter().any(|named| named.task().jitter > 0)
}

fn number_of(format: Format) -> u64
    ensures { result ≡ format_number format }
{
    match format {
        Format::One => 1,
        Format::Two => 2,
    }
}

fn core_tables(alloc: Global, cores: &[Core]) -> Result<Vec<Value>, AllocError>
    requires supplies { (c : ℕ) → c < length cores.now →
        IsCoreSupply (slice_index_or cores.now c no_core).supply }
    ensures printed { IfOk result (λ tables. map view tables.items ≡ map printed_core cores.now) }
    ensures named { OnOk result (CoresAreNamed cores.now) }
{
    let mut tables = Vec::with_capacity(alloc, cores.len())?;
    for core in cores {
        tables.push(core_table(alloc, core)?)?;
    }
    Ok(tables)
}

fn part_tables(alloc: Global, sys: &System) -> Result<Vec<Value>, AllocError>
    ensures printed { IfOk result (λ tables.
        map view tables.items ≡ map (printed_part sys.now) sys.now.parts) }
    ensures named { OnOk result (PartsAreNamed sys.now.parts) }
{
    let parts = sys.parts();
    let mut tables = Vec::with_capacity(alloc, parts.len())?;
    for part in parts {
        tables.push(part_table(alloc, sys, part)?)?;
    }
    Ok(tables)
}

fn task_tables(alloc: Global, tasks: &[Named]) -> Result<Vec<Value>, AllocError>
    ensures printed { IfOk result (λ tables. map view tables.items ≡ map printed_task tasks.now) }
    ensures named { OnOk result (TasksAreNamed tasks.now) }
{
    let mut tables = Vec::with_capacity(alloc, tasks.len())?;
    for task in tasks {
        tables.push(task_table(alloc, task)?)?;
    }
    Ok(tables)
}

fn core_table(alloc: Global, core: &Core) -> Result<Value, AllocError>
    requires supply { IsCoreSupply core.now.supply }
    ensures printed { IfOk result (λ table. view table ≡ printed_core core.now) }
    ensures named { OnOk result (is_name core.now.name ≡ true) }
{
    let mut table = Table::new(alloc);
    put_text(alloc, &mut table, "name", core.name.as_str())?;
    put_text(alloc, &mut table, "sched", word(core.sched))?;
    put_supply(alloc, &mut table, core.supply)?;
    Ok(Value::Table(table))
}

fn part_table(alloc: Global, sys: &System, part: &Part) -> Result<Value, AllocError>
    requires parent { IsNode sys.now (place_of part.now.parent) }
    requires is_part { IsPart part.now }
    ensures printed { IfOk result (λ table. view table ≡ printed_part sys.now part.now) }
    ensures named { OnOk result (IsPartNamed part.now) }
{
    let mut table = Table::new(alloc);
    let tasks = task_tables(alloc, part.tasks())?;
    put_text(alloc, &mut table, "name", part.name().as_str())?;
    put_text(
        alloc,
        &mut table,
        "parent",
        name_of(sys, part.parent()).as_str(),
    )?;
    put_text(alloc, &mut table, "sched", word(part.sched()))?;
    put_number(alloc, &mut table, "period", part.period())?;
    put_some_number(alloc, &mut table, "budget", part.budget())?;
    put_true(alloc, &mut table, "extra", part.extra())?;
    put_some_array(alloc, &mut table, "task", tasks)?;
    Ok(Value::Table(table))
}

/// The deadline is written where it is not the period, and the jitter where it is not 0.
fn task_table(alloc: Global, named: &Named) -> Result<Value, AllocError>
    ensures printed { IfOk result (λ table. view table ≡ printed_task named.now) }
    ensures named { OnOk result (is_name named.now.name ≡ true) }
{
    let task = named.task();
    let mut table = Table::new(alloc);
    put_text(alloc, &mut table, "name", named.name().as_str())?;
    put_number(alloc, &mut table, "period", task.period)?;
    put_number(alloc, &mut table, "work", task.work)?;
    put_other_number(alloc, &mut table, "deadline", task.period, task.deadline)?;
    put_other_number(alloc, &mut table, "jitter", 0, task.jitter)?;
    Ok(Value::Table(table))
}

/// The name of the node on which a part stands.
fn name_of(sys: &System, parent: Parent) -> &Name
    requires { IsNode sys.now (place_of parent) }
    ensures { result.now ≡ parent_name sys.now parent }
{
    match parent {
        Parent::Core(c) => &sys.cores()[c as usize].name,
        Parent::Part(q) => sys.parts()[q as usize].name(),
    }
}

fn word(sched: Sched) -> &'static str
    ensures { result.now ≡ sched_word sched }
{
    match sched {
        Sched::Edf => "edf",
        Sched::Rm => "rm",
        Sched::Dm => "dm",
        Sched::Listed => "listed",
    }
}

fn put(alloc: Global, table: &mut Table, key: &str, value: Value) -> Result<(), AllocError>
    ensures { OnOk result (table_view table.new
        ≡ insert_member key.now (view value) (table_view table.old)) }
{
    table.insert(String::from_str(alloc, key)?, value)?;
    Ok(())
}

fn put_text(alloc: Global, table: &mut Table, key: &str, text: &str) -> Result<(), AllocError>
    ensures { OnOk result (table_view table.new
        ≡ insert_member key.now (string text.now) (table_view table.old)) }
{
    put(alloc, table, key, Value::string(alloc, text)?)
}

fn put_number(alloc: Global, table: &mut Table, key: &str, n: u64) -> Result<(), AllocError>
    requires { n ≤ LIMIT }
    ensures { OnOk result (table_view table.new
        ≡ insert_member key.now (number n) (table_view table.old)) }
{
    put(alloc, table, key, Value::Integer(n as i64))
}

fn put_some_number(
    alloc: Global,
    table: &mut Table,
    key: &str,
    n: Option<u64>,
) -> Result<(), AllocError>
    requires { IfSome n (λ n. n ≤ LIMIT) }
    ensures { OnOk result (table_view table.new
        ≡ with_some key.now (some_number n) (table_view table.old)) }
{
    match n {
        Some(n) => put_number(alloc, table, key, n),
        None => Ok(()),
    }
}

/// The usual number is left out.
fn put_other_number(
    alloc: Global,
    table: &mut Table,
    key: &str,
    usual: u64,
    n: u64,
) -> Result<(), AllocError>
    requires { n ≤ LIMIT }
    ensures { OnOk result (
        table_view table.new ≡ with_some key.now (other_number usual n) (table_view table.old)) }
{
    if n == usual {
        Ok(())
    } else {
        put_number(alloc, table, key, n)
    }
}

/// A full core has no supply keys.
fn put_supply(
    alloc: Global,
    table: &mut Table,
    supply: Option<(u64, u64)>,
) -> Result<(), AllocError>
    requires { IsCoreSupply supply }
    ensures { OnOk result (table_view table.new ≡ with_supply supply (table_view table.old)) }
{
    match supply {
        Some((period, budget)) => {
            put_number(alloc, table, "supply_period", period)?;
            put_number(alloc, table, "supply_budget", budget)
        }
        None => Ok(()),
    }
}

fn put_true(alloc: Global, table: &mut Table, key: &str, flag: bool) -> Result<(), AllocError>
    ensures { OnOk result (table_view table.new
        ≡ with_some key.now (true_flag flag) (table_view table.old)) }
{
    if flag {
        put(alloc, table, key, Value::Boolean(true))
    } else {
        Ok(())
    }
}

fn put_some_array(
    alloc: Global,
    table: &mut Table,
    key: &str,
    elements: Vec<Value>,
) -> Result<(), AllocError>
    ensures { OnOk result (table_view table.new
        ≡ with_some key.now (some_array (map view elements.items)) (table_view table.old)) }
{
    if elements.is_empty() {
        Ok(())
    } else {
        put(alloc, table, key, Value::Array(elements))
    }
}
