ghost use Rattle.std.specs.Prelude.{◌≡◌, ◌⊎◌, ◌∷◌, ◌<◌, ◌^◌, [], List, ℕ, true, None, length, map, IfOk, IfErr, OnOk};
ghost use Rattle.admission_session.specs.Rows.{as_row, leaf_row};
ghost use Rattle.csv_rows.specs.Reading.{HasRead, IsOpen, records_of};
ghost use Rattle.script_file.specs.declared.fault.ScriptFault.TheVariants.{BadHeader, NoMemory};
ghost use Rattle.script_file.specs.Script.{SpellsRows, SpellsScript, IsScriptFault, is_script_header, script_rows};

use crate::ScriptFault;
use crate::row_fields::is_script_header;
use crate::script_rows::ScriptRows;
use admission_session::{Edit, Leaf, Op, Row};
use csv_rows::{Records, read_rows};
use slot_model::{Name, Sched};
use std::alloc::{AllocError, Global};

/// The header of a script.
pub fn read_header(records: &mut Records) -> Result<(), ScriptFault>
    requires { IsOpen records.old }
    ensures header { (text : List ℕ) → HasRead text [] records.old
        → IfOk result (λ done. (header : List (List ℕ)) × (is_script_header header ≡ true)
        × HasRead text (header ∷ []) records.new) }
    ensures fault { (text : List ℕ) → HasRead text [] records.old
        → IfErr result (λ fault. (fault ≡ NoMemory)
        ⊎ ((fault ≡ BadHeader) × (script_rows (records_of text) ≡ None))) }
    ensures takes_any { OnOk result (IsOpen records.new) }
{
    let Ok(()) = records.read_header() else {
        return Err(ScriptFault::NoMemory);
    };
    if !is_script_header(&records.row()) {
        return Err(ScriptFault::BadHeader);
    }
    Ok(())
}

/// The edits that the records of a text spell, or the first rule that the text breaks.
pub fn read_edits(alloc: Global, bytes: &[u8]) -> Result<Vec<Edit>, ScriptFault>
    ensures spelt { IfOk result (λ edits. SpellsScript (records_of bytes.now) edits.items) }
    ensures few { IfOk result (λ edits. length edits.items < 2 ^ 32) }
    ensures fault { IfErr result (λ fault. (fault ≡ NoMemory)
        ⊎ IsScriptFault (script_rows (records_of bytes.now)) fault) }
{
    let mut records = Records::new(alloc, bytes);
    if let Err(fault) = read_header(&mut records) {
        return Err(fault);
    }
    let mut rows = ScriptRows::new(alloc);
    if let Err(fault) = read_rows(&mut records, &mut rows) {
        return Err(fault);
    }
    Ok(rows.finish())
}

/// The same as rows, one of each edit.
pub fn read_script(alloc: Global, bytes: &[u8]) -> Result<Vec<Row>, ScriptFault>
    ensures spelt { IfOk result (λ rows. SpellsRows (records_of bytes.now) rows.items) }
    ensures few { IfOk result (λ rows. length rows.items < 2 ^ 32) }
    ensures fault { IfErr result (λ fault. (fault ≡ NoMemory)
        ⊎ IsScriptFault (script_rows (records_of bytes.now)) fault) }
{
    let edits = read_edits(alloc, bytes)?;
    match rows_of(alloc, edits) {
        Ok(rows) => Ok(rows),
        Err(_) => Err(ScriptFault::NoMemory),
    }
}

fn rows_of(alloc: Global, edits: Vec<Edit>) -> Result<Vec<Row>, AllocError>
    ensures { IfOk result (λ rows. rows.items ≡ map as_row edits.items) }
{
    edits
        .into_iter()
        .map(|edit| row_of(alloc, edit))
        .collect(alloc)
}

/// The row of an edit.
fn row_of(alloc: Global, edit: Edit) -> Row
    ensures { result ≡ as_row edit }
{
    match edit {
        Edit::Add { leaf, parent } => leaf_row(Op::Add, leaf, parent),
        Edit::Remove(name) => Row {
            op: Op::Remove,
            name,
            parent: None,
            sched: Sched::Edf,
            period: 1,
            budget: None,
            tasks: Vec::new(alloc),
        },
        Edit::Change(leaf) => leaf_row(Op::Change, leaf, None),
    }
}

fn leaf_row(op: Op, leaf: Leaf, parent: Option<Name>) -> Row
    ensures { result ≡ leaf_row op leaf parent }
{
    Row {
        op,
        name: leaf.name,
        parent,
        sched: leaf.sched,
        period: leaf.period,
        budget: leaf.budget,
        tasks: leaf.tasks,
    }
}
