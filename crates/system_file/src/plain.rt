ghost use Rattle.std.specs.Prelude.{◌≡◌, ◌≤◌, [], length, codes, Ok, IfOk};
ghost use Rattle.toml.specs.Parse.{parse_document};
ghost use Rattle.toml_items.specs.Plain.{path_of};
ghost use Rattle.system_file.specs.SystemFile.{system_of_document};
ghost use Rattle.system_file.specs.inner.Plain.{BeginsWithFormat, BeginsArray, ReadsCores, ReadsParts, SpellsNodes};

use crate::at_front::{core_at, part_at};
use crate::format::Format;
use crate::keys::{check_keys, format_at};
use crate::names::Names;
use crate::whole::{Nodes, whole_system};
use crate::{Spot, SystemFault};
use std::alloc::Global;
use toml_items::{Header, array_at, header_again, is_end, top_pairs};
use tree_model::{Core, MAX_CORES, MAX_PARTS, Part, System};

/// The system of a plain text of a format, cores and then parts, which are made while it is read.
/// It answers a fault where the text is any other, or has faults, of which that need not be the
/// first.
pub fn read_plain(alloc: Global, text: &str) -> Result<System, SystemFault>
    ensures { IfOk result (λ sys. system_of_document (parse_document text.now) ≡ Ok sys) }
{
    let nodes = plain_nodes(alloc, text)?;
    whole_system(alloc, nodes)
}

/// The cores and the parts of such a text.
fn plain_nodes(alloc: Global, text: &str) -> Result<Nodes, SystemFault>
    ensures { IfOk result (λ nodes. SpellsNodes text.now nodes.cores.items nodes.parts.items) }
{
    let top = format_first(alloc, text)?;
    let mut names = Names::new(alloc);
    let core = array_named(top.rest, "core")?;
    let cores = cores_from(alloc, core, &mut names)?;
    let part = array_named(cores.rest, "part")?;
    let parts = parts_from(alloc, part, top.format, cores.cores.len(), &mut names)?;
    if !is_end(parts.rest) {
        return Err(SystemFault::NotToml);
    }
    Ok(Nodes {
        cores: cores.cores,
        parts: parts.parts,
    })
}

/// The format of a text, and what stands behind it.
#[derive(Clone, Copy)]
struct Top<'t> {
    format: Format,
    rest: &'t str,
}

/// The format of a text whose top table has no other pair.
fn format_first(alloc: Global, text: &str) -> Result<Top<'_>, SystemFault>
    ensures { IfOk result (λ top. BeginsWithFormat text.now top.format top.rest.now) }
{
    let Some(top) = top_pairs(alloc, text)? else {
        return Err(SystemFault::NotToml);
    };
    check_keys(&top.entries, &["format"], Spot::Top)?;
    let format = format_at(&top.entries)?;
    Ok(Top {
        format,
        rest: top.rest,
    })
}

/// The header at the front of a text, if it begins the array at this key of the top table.
fn array_named<'t>(text: &'t str, key: &str) -> Result<Header<'t>, SystemFault>
    ensures { IfOk result (λ header.
        BeginsArray text.now (path_of header.parent) header.key.now key.now header.rest.now) }
{
    match array_at(text) {
        Some(header) => {
            if header.key == key {
                Ok(header)
            } else {
                Err(SystemFault::NotToml)
            }
        }
        None => Err(SystemFault::NotToml),
    }
}

/// Cores, and the text behind them.
#[derive(Drop)]
struct Cores<'t> {
    cores: Vec<Core>,
    rest: &'t str,
}

/// The cores of the array of this header, whose names are put into an empty set.
fn cores_from<'t>(
    alloc: Global,
    header: Header<'t>,
    names: &mut Names<'t>,
) -> Result<Cores<'t>, SystemFault>
    requires { names.old ≡ [] }
    ensures { IfOk result (λ read. ReadsCores (path_of header.entry.parent) header.entry.key.now
        header.entry.rest.now read.cores.items names.new read.rest.now) }
{
    let mut cores = Vec::new(alloc);
    let mut rest = header.rest;
    'elements: while cores.len() < MAX_CORES {
        let there = core_at(alloc, header, rest, cores.len(), names)?;
        cores.push(there.core)?;
        match header_again(header, there.rest) {
            Some(after) => rest = after,
            None => {
                return Ok(Cores {
                    cores,
                    rest: there.rest,
                });
            }
        }
    }
    Err(SystemFault::TooMany(Spot::Top))
}

/// Parts, and the text behind them.
#[derive(Drop)]
struct Parts<'t> {
    parts: Vec<Part>,
    rest: &'t str,
}

/// The parts of the array of this header, over the names of the cores.
fn parts_from<'t>(
    alloc: Global,
    header: Header<'t>,
    format: Format,
    cores: usize,
    names: &mut Names<'t>,
) -> Result<Parts<'t>, SystemFault>
    requires top { path_of header.parent ≡ [] }
    requires few_cores { cores ≤ 64 }
    requires names { length names.old ≡ cores }
    ensures { IfOk result (λ read. ReadsParts (path_of header.entry.parent) header.entry.key.now
        header.entry.rest.now format cores names.old read.parts.items read.rest.now) }
{
    let mut parts = Vec::new(alloc);
    let mut tasks = Names::new(alloc);
    let mut rest = header.rest;
    'elements: while parts.len() < MAX_PARTS {
        let there = part_at(
            alloc, header, rest, format, cores, &parts, names, &mut tasks,
        )?;
        parts.push(there.part)?;
        match header_again(header, there.rest) {
            Some(after) => rest = after,
            None => {
                return Ok(Parts {
                    parts,
                    rest: there.rest,
                });
            }
        }
    }
    Err(SystemFault::TooMany(Spot::Top))
}
