ghost use Rattle.std.specs.Prelude.{◌≡◌, ◌≢◌, ◌≤◌, [], length, map, Some, Ok, Err, IfOk, IfErr};
ghost use Rattle.toml.specs.Data.{table as toml_table};
ghost use Rattle.toml.specs.Parse.{parse_document};
ghost use Rattle.toml_items.specs.Item.{entries_view, item_view};
ghost use Rattle.tree_model.specs.View.{SystemView};
ghost use Rattle.tree_model.specs.Lists.{first_of};
ghost use Rattle.system_file.specs.declared.fault.SystemFault.TheVariants.{NoMemory};
ghost use Rattle.system_file.specs.Document.{cores_of, format_of, parts_of, spelled_system};
ghost use Rattle.system_file.specs.Faults.{faults, top_faults};
ghost use Rattle.system_file.specs.inner.Reading.{AreNodes};
ghost use Rattle.system_file.specs.SystemFile.{system_of, system_of_document};
ghost use Rattle.system_file.specs.Written.{Spells};

use crate::cores::read_cores;
use crate::format::Format;
use crate::keys::{check_keys, cores_at, elements_at, format_at};
use crate::names::Names;
use crate::parts::read_parts;
use crate::plain::read_plain;
use crate::whole::{Nodes, whole_system};
use crate::{Spot, SystemFault};
use std::alloc::Global;
use std::str;
use toml_items::{Document, DocumentFault, Entry, Item, read_document, table_entries};
use tree_model::{MAX_PARTS, System};

/// The format of a document, and the values of its cores and parts.
#[derive(Clone, Copy)]
struct Top<'e, 't> {
    format: Format,
    cores: &'e [Item<'t>],
    parts: &'e [Item<'t>],
}

/// The top table of a document.
fn top_of<'e, 't>(table: &'e [Entry<'t>]) -> Result<Top<'e, 't>, SystemFault>
    ensures ok { IfOk result (λ top. let document = toml_table (entries_view table.now) in
        (top_faults document ≡ []) × (top.format ≡ format_of document)
        × (map item_view top.cores.now ≡ cores_of document)
        × (map item_view top.parts.now ≡ parts_of document)) }
    ensures few { IfOk result (λ top.
        (length top.cores.now ≤ 64) × (length top.parts.now ≤ 512)) }
    ensures fault { IfErr result (λ fault.
        first_of (top_faults (toml_table (entries_view table.now))) ≡ Some fault) }
{
    check_keys(table, &["format", "core", "part"], Spot::Top)?;
    let format = format_at(table)?;
    let cores = cores_at(table)?;
    let parts = elements_at(table, "part", MAX_PARTS, Spot::Top)?;
    Ok(Top {
        format,
        cores,
        parts,
    })
}

/// The cores and the parts of a document's entries, of which a part may still be empty.
fn nodes_of(alloc: Global, table: &[Entry<'_>]) -> Result<Nodes, SystemFault>
    ensures ok { IfOk result (λ nodes.
        AreNodes (toml_table (entries_view table.now)) nodes.cores.items nodes.parts.items) }
    ensures fault { IfErr result (λ fault. fault ≢ NoMemory →
        first_of (faults (toml_table (entries_view table.now))) ≡ Some fault) }
{
    let top = top_of(table)?;
    let mut names = Names::new(alloc);
    let cores = read_cores(alloc, top.cores, &mut names)?;
    let parts = read_parts(alloc, top.parts, top.format, top.cores.len(), &mut names)?;
    Ok(Nodes { cores, parts })
}

/// The system of a document's entries, or its first fault.
fn system_in(alloc: Global, table: &[Entry<'_>]) -> Result<System, SystemFault>
    ensures ok { IfOk result (λ sys. (faults (toml_table (entries_view table.now)) ≡ [])
        × (sys ≡ spelled_system (toml_table (entries_view table.now)))) }
    ensures fault { IfErr result (λ fault. fault ≢ NoMemory →
        first_of (faults (toml_table (entries_view table.now))) ≡ Some fault) }
{
    let nodes = nodes_of(alloc, table)?;
    whole_system(alloc, nodes)
}

/// The system of a text's document, or its first fault, by way of all items of the document.
fn read_items(alloc: Global, text: &str) -> Result<System, SystemFault>
    ensures spelled { IfOk result (λ sys. system_of_document (parse_document text.now) ≡ Ok sys) }
    ensures fault { IfErr result (λ fault. fault ≢ NoMemory →
        system_of_document (parse_document text.now) ≡ Err fault) }
{
    match read_document(alloc, text) {
        Ok(Document::Entries(entries)) => system_in(alloc, &entries),
        Ok(Document::Table(table)) => {
            let entries = table_entries(alloc, &table)?;
            system_in(alloc, &entries)
        }
        Err(DocumentFault::NotToml) => Err(SystemFault::NotToml),
        Err(DocumentFault::NoMemory) => Err(SystemFault::NoMemory),
    }
}

/// The system of a text's document, or its first fault. Where the text is not read to its end in
/// one walk, it is read whole.
fn read_text(alloc: Global, text: &str) -> Result<System, SystemFault>
    ensures spelled { IfOk result (λ sys. system_of_document (parse_document text.now) ≡ Ok sys) }
    ensures fault { IfErr result (λ fault. fault ≢ NoMemory →
        system_of_document (parse_document text.now) ≡ Err fault) }
{
    match read_plain(alloc, text) {
        Ok(system) => Ok(system),
        Err(SystemFault::NoMemory) => Err(SystemFault::NoMemory),
        Err(_) => read_items(alloc, text),
    }
}

/// The system that a file spells, or the first fault of its document. Bytes that are no TOML
/// document, or no text, are `NotToml`. `NoMemory` may come in place of any answer.
pub fn read_system(alloc: Global, bytes: &[u8]) -> Result<System, SystemFault>
    ensures spelled { IfOk result (λ sys. system_of bytes.now ≡ Ok sys) }
    ensures fault { IfErr result (λ fault. fault ≢ NoMemory → system_of bytes.now ≡ Err fault) }
    ensures read { IfOk result (λ sys. Spells bytes.now sys) }
    ensures refused { IfErr result (λ fault. fault ≢ NoMemory → (sys : SystemView) →
        Spells bytes.now sys → ⊥) }
{
    match str::from_utf8(bytes) {
        Ok(text) => read_text(alloc, text),
        Err(_) => Err(SystemFault::NotToml),
    }
}
