ghost use Rattle.std.specs.Prelude.{◌≡◌, Some, option_map, IfOk};
ghost use Rattle.csv_rows.specs.Row.{fields_of};
ghost use Rattle.system_file.specs.Document.{sched_named};
ghost use Rattle.script_file.specs.Script.{addition, edit_in, is_bare, leaf_in, op_named, served_in};
ghost use Rattle.script_file.specs.inner.Fields.{row_fields};

use crate::numbers::number;
use crate::row_fields::{RowFields, seven_fields};
use crate::task_spelling::spell_tasks;
use admission_session::{Edit, Leaf, Op};
use csv_rows::{Row, is_word};
use slot_model::{Name, Sched};
use std::alloc::{AllocError, Global};

/// The operation of a word.
fn op_named(word: &[u8]) -> Option<Op>
    ensures { result ≡ op_named word.now }
{
    if is_word(word, "add") {
        return Some(Op::Add);
    }
    if is_word(word, "remove") {
        return Some(Op::Remove);
    }
    if is_word(word, "change") {
        return Some(Op::Change);
    }
    None
}

/// The scheduler of a word.
fn sched_named(word: &[u8]) -> Option<Sched>
    ensures { result ≡ sched_named word.now }
{
    if is_word(word, "edf") {
        return Some(Sched::Edf);
    }
    if is_word(word, "rm") {
        return Some(Sched::Rm);
    }
    if is_word(word, "dm") {
        return Some(Sched::Dm);
    }
    if is_word(word, "listed") {
        return Some(Sched::Listed);
    }
    None
}

/// How a leaf is served: its scheduler, and the period and the budget of its server.
#[derive(Clone, Copy)]
struct Served {
    sched: Sched,
    period: u64,
    budget: Option<u64>,
}

/// What the fields of a row say of how a leaf is served, where they say it.
fn spell_served(f: &RowFields) -> Option<Served>
    ensures { option_map (λ s. (s.sched, (s.period, s.budget))) result
        ≡ served_in f.now.sched.now f.now.period.now f.now.budget.now }
{
    let sched = sched_named(f.sched)?;
    let period = number(f.period)?;
    if f.budget.is_empty() {
        return Some(Served {
            sched,
            period,
            budget: None,
        });
    }
    let budget = Some(number(f.budget)?);
    Some(Served {
        sched,
        period,
        budget,
    })
}

/// The leaf that the fields of a row spell, where they spell one.
fn spell_leaf(alloc: Global, f: &RowFields) -> Result<Option<Leaf>, AllocError>
    ensures { let g = f.now in IfOk result (λ made.
        made ≡ leaf_in g.part.now g.sched.now g.period.now g.budget.now g.tasks.now) }
{
    let Some(served) = spell_served(f) else {
        return Ok(None);
    };
    let Some(tasks) = spell_tasks(alloc, f.tasks)? else {
        return Ok(None);
    };
    let Some(name) = Name::new(alloc, f.part)? else {
        return Ok(None);
    };
    Ok(Some(Leaf {
        name,
        sched: served.sched,
        period: served.period,
        budget: served.budget,
        tasks,
    }))
}

/// The addition of the leaf of a row, where it spells one.
fn spell_added(
    alloc: Global,
    f: &RowFields,
    parent: Option<Name>,
) -> Result<Option<Edit>, AllocError>
    ensures { let g = f.now in IfOk result (λ made. made ≡ addition (Some parent)
        (leaf_in g.part.now g.sched.now g.period.now g.budget.now g.tasks.now)) }
{
    match spell_leaf(alloc, f)? {
        None => Ok(None),
        Some(leaf) => Ok(Some(Edit::Add { leaf, parent })),
    }
}

fn spell_addition(alloc: Global, f: &RowFields) -> Result<Option<Edit>, AllocError>
    requires { op_named f.now.op.now ≡ Some Op.Add }
    ensures { IfOk result (λ made. made ≡ edit_in (row_fields f.now)) }
{
    if f.parent.is_empty() {
        return spell_added(alloc, f, None);
    }
    match Name::new(alloc, f.parent)? {
        None => Ok(None),
        Some(parent) => spell_added(alloc, f, Some(parent)),
    }
}

fn spell_change(alloc: Global, f: &RowFields) -> Result<Option<Edit>, AllocError>
    requires { op_named f.now.op.now ≡ Some Op.Change }
    ensures { IfOk result (λ made. made ≡ edit_in (row_fields f.now)) }
{
    if !f.parent.is_empty() {
        return Ok(None);
    }
    match spell_leaf(alloc, f)? {
        None => Ok(None),
        Some(leaf) => Ok(Some(Edit::Change(leaf))),
    }
}

/// Whether all fields are empty but the operation and the part.
fn is_bare(f: &RowFields) -> bool
    ensures { let g = f.now in result
        ≡ is_bare g.parent.now g.sched.now g.period.now g.budget.now g.tasks.now }
{
    f.parent.is_empty()
        && f.sched.is_empty()
        && f.period.is_empty()
        && f.budget.is_empty()
        && f.tasks.is_empty()
}

fn spell_removal(alloc: Global, f: &RowFields) -> Result<Option<Edit>, AllocError>
    requires { op_named f.now.op.now ≡ Some Op.Remove }
    ensures { IfOk result (λ made. made ≡ edit_in (row_fields f.now)) }
{
    if !is_bare(f) {
        return Ok(None);
    }
    match Name::new(alloc, f.part)? {
        None => Ok(None),
        Some(name) => Ok(Some(Edit::Remove(name))),
    }
}

/// The edit that seven fields spell, where they spell one.
fn spell_fields(alloc: Global, f: &RowFields) -> Result<Option<Edit>, AllocError>
    ensures { IfOk result (λ made. made ≡ edit_in (row_fields f.now)) }
{
    match op_named(f.op) {
        None => Ok(None),
        Some(Op::Add) => spell_addition(alloc, f),
        Some(Op::Remove) => spell_removal(alloc, f),
        Some(Op::Change) => spell_change(alloc, f),
    }
}

/// The edit that a record spells, where it spells one.
pub fn spell_edit(alloc: Global, row: &Row) -> Result<Option<Edit>, AllocError>
    ensures { IfOk result (λ made. made ≡ edit_in (fields_of row.now)) }
{
    match seven_fields(row) {
        None => Ok(None),
        Some(f) => spell_fields(alloc, &f),
    }
}
